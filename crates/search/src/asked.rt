// The questions of a search on an accepted file, but for the last. Internal.
ghost use Rattle.std.specs.Prelude.{◌≡◌, ◌++◌, ltb};
ghost use Rattle.items.specs.Question.{first_no};
ghost use Rattle.items.specs.Item.{narrow, max_guessed};
ghost use Rattle.tables.specs.Held.{held};
ghost use Rattle.reader.specs.Questions.{constraint_facts};
ghost use Rattle.reader.specs.Asked.{constrained_facts, counts_of};
ghost use Rattle.questions.specs.Answer.{answer_of};
ghost use Rattle.questions.specs.Questions.{buffer_questions, limit_questions};
ghost use Rattle.questions.specs.Parts.{limits_no};

use items::lengths::NAME_WIDTH;
use items::refusal::Refusal;
use marking::marks::count_constraint_facts;
use nogoods::guess::MAX_GUESSED;
use reader::answer::FileCounts;
use tables::layout::Tables;

// Are there more constraint facts than are guessed? Each of them is read and a constraint of some rule, so where there are few of these nothing is counted.
fn too_many_guesses(tables: &Tables, constrained: u16) -> bool
    requires { constrained ≡ constrained_facts (held tables.now) }
    ensures { result ≡ ltb max_guessed (constraint_facts (held tables.now)) }
{
    if usize::from(constrained) <= MAX_GUESSED {
        return false;
    }
    MAX_GUESSED < usize::from(count_constraint_facts(tables))
}

// Questions 34 and 40, by the counts of the file and the length of the order's buffer.
fn ask_limits(tables: &Tables, counts: FileCounts, order: usize) -> Result<(), Refusal>
    requires { counts ≡ counts_of (held tables.now) }
    ensures { result ≡ answer_of (limits_no (held tables.now) order) }
{
    if order < NAME_WIDTH * usize::from(counts.exceptions) {
        return Err(Refusal::OrderShort);
    }
    if too_many_guesses(tables, counts.constrained) {
        return Err(Refusal::TooManyConstraints);
    }
    Ok(())
}

// The questions of the buffers, by their lengths, then of the constraint facts.
pub fn ask_search(
    tables: &Tables,
    counts: FileCounts,
    facts: usize,
    rules: usize,
    steps: usize,
    order: usize,
) -> Result<(), Refusal>
    requires { counts ≡ counts_of (held tables.now) }
    ensures { result ≡ answer_of (first_no (buffer_questions narrow (held tables.now) facts rules steps ++ limit_questions (held tables.now) order)) }
{
    questions::buffers::ask_buffers(tables, facts, rules, steps)?;
    ask_limits(tables, counts, order)
}
