// Layered files: the order of a file's exception rules by the rank of their conclusions.

#![tactic(auto)]

ghost use Rattle.std.specs.Prelude.{◌≡◌, length};
ghost use Rattle.tables.specs.Held.{held};
ghost use Rattle.reader.specs.Asked.{counts_of};
ghost use Rattle.questions.specs.Questions.{layered_no};
ghost use Rattle.layers.specs.Outcome.{LayeredOutcome, layered_outcome, LayeredMeans};
ghost use Rattle.layers.specs.Tabled.{layered_of};

use items::lengths::NAME_WIDTH;
use items::refusal::Refusal;
use reader::answer::FileCounts;
use tables::layout::Tables;

// Writes the exception rules of a file by the least rank of their conclusions, then by number, over the front of the order; those that are withheld come last,
// ascending. Answers how many they are, or the first no.
pub fn layered(file: &[u8], order: &mut [u8]) -> Result<u16, Refusal>
    ensures fact { ◌≡◌ {A = LayeredOutcome} (record { answer = result; order = order.new }) (layered_outcome file.now order.old) }
    ensures layered_means { LayeredMeans file.now (layered_no file.now (length order.old)) (record { answer = result; order = order.new }) }
{
    let mut tables = Tables::empty();
    let counts = reader::scan::scan(file, &mut tables)?;
    layered_scanned(&tables, counts, order)
}

// The questions after the file's own, and then the order. Internal.
fn layered_scanned(tables: &Tables, counts: FileCounts, order: &mut [u8]) -> Result<u16, Refusal>
    requires { counts ≡ counts_of (held tables.now) }
    ensures { ◌≡◌ {A = LayeredOutcome} (record { answer = result; order = order.new }) (layered_of (held tables.now) order.old) }
{
    if order.len() < NAME_WIDTH * usize::from(counts.exceptions) {
        return Err(Refusal::OrderShort);
    }
    let ranks = descent::walk::walk(tables)?;
    orders::ranks::write_by_rank(tables, &ranks, order);
    Ok(counts.exceptions)
}
