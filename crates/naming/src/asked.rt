// The questions before a run that stand behind those of the file. Internal.
ghost use Rattle.std.specs.Prelude.{◌≡◌};
ghost use Rattle.tables.specs.Held.{held};
ghost use Rattle.questions.specs.Answer.{answer_of};
ghost use Rattle.questions.specs.Parts.{tabled_no};

use items::refusal::Refusal;
use tables::layout::Tables;

// The questions of the order, then of the buffers, by their lengths.
pub fn ask_tabled(
    tables: &Tables,
    order: &[u8],
    facts: usize,
    rules: usize,
    steps: usize,
) -> Result<(), Refusal>
    ensures { result ≡ answer_of (tabled_no (held tables.now) order.now facts rules steps) }
{
    crate::order::ask_order_of(tables, order)?;
    questions::buffers::ask_buffers(tables, facts, rules, steps)
}
