// The search of an accepted file. Internal.
ghost use Rattle.std.specs.Prelude.{◌≤◌, ◌≡◌, length, Ok};
ghost use Rattle.std.proofs.Math.Option.{none};
ghost use Rattle.theory.specs.Rule.{in_force};
ghost use Rattle.theory.specs.Search.{search};
ghost use Rattle.items.specs.Item.{has, max_guessed};
ghost use Rattle.tables.specs.Held.{held};
ghost use Rattle.reader.specs.Questions.{program_of, constraint_facts};
ghost use Rattle.reader.specs.Scanned.{Tabled};
ghost use Rattle.questions.specs.Parts.{early_no};
ghost use Rattle.earliest.specs.Root.{Shown};
ghost use Rattle.search.specs.Outcome.{SearchOutcome, found_at, search_outcome};

use items::item::MAX_FACTS;
use items::refusal::Refusal;
use nogoods::guess::MAX_GUESSED;
use run::answer::Ran;
use tables::layout::Tables;

// Writes the order for a set, and runs the program in the tables under it. The order gets yes to its questions, so the run refuses nothing. The file is not
// read again: only the contract speaks of it.
fn run_to(
    file: &[u8],
    tables: &Tables,
    set: &[u8; MAX_FACTS],
    fact_marks: &mut [u8],
    rule_marks: &mut [u8],
    steps: &mut [u8],
    order: &mut [u8],
) -> Ran
    requires order_value { early_no file.now (length fact_marks.old) (length rule_marks.old) (length steps.old) (length order.old) ≡ none }
    requires tabled { Tabled file.now tables.now.cells }
    ensures { ◌≡◌ {A = SearchOutcome} (record { answer = Ok result; fact_marks = fact_marks.new; rule_marks = rule_marks.new; steps = steps.new; order = order.new }) (found_at (program_of file.now) (has set.now) fact_marks.old rule_marks.old steps.old order.old) }
{
    let length = orders::written::write_order(tables, set, order);
    run::stages::run_tabled(tables, &order[..length], fact_marks, rule_marks, steps)
}

// Looks for the earliest stable set of a program with few constraint facts. Answers the marks of its facts, where there is one.
fn find_set(tables: &Tables) -> Option<[u8; MAX_FACTS]>
    requires { constraint_facts (held tables.now) ≤ max_guessed }
    ensures { Shown (search (held tables.now) (in_force (held tables.now))) result }
{
    let mut marks = [0u8; MAX_FACTS];
    marking::marks::mark_constraint_facts(tables, &mut marks);
    let mut row = [0u16; MAX_GUESSED];
    let n = earliest::guessed::list_down(&marks, tables.facts(), &mut row);
    earliest::root::earliest(tables, &row[..n])
}

// Searches the file, and runs it to the set found.
pub fn search_accepted(
    file: &[u8],
    tables: &Tables,
    fact_marks: &mut [u8],
    rule_marks: &mut [u8],
    steps: &mut [u8],
    order: &mut [u8],
) -> Result<Ran, Refusal>
    requires order_value { early_no file.now (length fact_marks.old) (length rule_marks.old) (length steps.old) (length order.old) ≡ none }
    requires tabled { Tabled file.now tables.now.cells }
    ensures { ◌≡◌ {A = SearchOutcome} (record { answer = result; fact_marks = fact_marks.new; rule_marks = rule_marks.new; steps = steps.new; order = order.new }) (search_outcome file.now fact_marks.old rule_marks.old steps.old order.old) }
{
    let Some(set) = find_set(tables) else {
        return Err(Refusal::NoStableSet);
    };
    Ok(run_to(file, tables, &set, fact_marks, rule_marks, steps, order))
}
