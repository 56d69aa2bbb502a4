// The proof check: is a row of steps a proof of a fact that a set admits?

#![tactic(auto)]

mod accepted;
mod own;
mod steps;

ghost use Rattle.std.specs.Prelude.{◌≡◌};
ghost use Rattle.proofcheck.specs.Checked.{checked, CheckMeans};

use items::refusal::Refusal;
use tables::layout::Tables;

// Checks a row: the questions of the file, then of the set, then of the asked fact and the row.
pub fn check(file: &[u8], set: &[u8], fact: u32, proof: &[u8]) -> Result<bool, Refusal>
    ensures value { result ≡ checked file.now set.now fact proof.now }
    ensures check_means { CheckMeans file.now set.now fact proof.now result }
{
    let mut tables = Tables::empty();
    reader::scan::scan(file, &mut tables)?;
    accepted::check_accepted(file, &tables, set, fact, proof)
}
