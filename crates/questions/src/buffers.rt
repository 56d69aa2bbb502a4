// The questions on the buffers that the run and the search share. Internal.
ghost use Rattle.std.specs.Prelude.{◌≡◌};
ghost use Rattle.tables.specs.Held.{held};
ghost use Rattle.questions.specs.Questions.{buffers_no};
ghost use Rattle.questions.specs.Answer.{answer_of};
ghost use Rattle.items.specs.Item.{narrow};

use items::lengths::STEP_WIDTH;
use items::refusal::Refusal;
use tables::layout::Tables;

// Questions 31 to 33, by the lengths of the buffers.
pub fn ask_buffers(tables: &Tables, facts: usize, rules: usize, steps: usize) -> Result<(), Refusal>
    ensures { result ≡ answer_of (buffers_no narrow (held tables.now) facts rules steps) }
{
    let count = tables.facts();
    if facts < count {
        return Err(Refusal::FactMarksShort);
    }
    if rules < tables.rules() {
        return Err(Refusal::RuleMarksShort);
    }
    if steps < STEP_WIDTH * count {
        return Err(Refusal::StepsShort);
    }
    Ok(())
}
