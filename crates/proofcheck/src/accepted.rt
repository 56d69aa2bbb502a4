// The proof check on an accepted file. Internal.
ghost use Rattle.std.specs.Prelude.{◌≡◌};
ghost use Rattle.std.proofs.Math.Option.{none};
ghost use Rattle.theory.specs.Rule.{in_force};
ghost use Rattle.theory.specs.Check.{is_proof};
ghost use Rattle.items.specs.Item.{has};
ghost use Rattle.reader.specs.Questions.{program_of, file_no};
ghost use Rattle.reader.specs.Scanned.{Tabled};
ghost use Rattle.questions.specs.Questions.{row_of};
ghost use Rattle.proofcheck.specs.Checked.{checked};

use items::item::{FactId, MAX_FACTS};
use items::refusal::Refusal;
use tables::layout::Tables;

// Is the row a proof of the fact that the set admits?
fn is_proof(file: &[u8], tables: &Tables, set: &[u8], fact: FactId, proof: &[u8]) -> bool
    requires { Tabled file.now tables.now.cells }
    ensures { result ≡ is_proof (program_of file.now) (in_force (program_of file.now)) (has set.now) (row_of proof.now) fact.0 }
{
    let mut marks = [0u8; MAX_FACTS];
    crate::steps::row_proves(file, tables, set, fact, proof, &mut marks)
}

// The questions of the set, then of the asked fact and the row; then the check.
pub fn check_accepted(
    file: &[u8],
    tables: &Tables,
    set: &[u8],
    fact: u32,
    proof: &[u8],
) -> Result<bool, Refusal>
    requires { (file_no file.now ≡ none) × Tabled file.now tables.now.cells }
    ensures { result ≡ checked file.now set.now fact proof.now }
{
    let facts = tables.facts();
    questions::fact_set::ask_set_of(facts, set)?;
    questions::row::ask_row_of(facts, fact, proof)?;
    Ok(is_proof(file, tables, set, FactId(fact as u16), proof))
}
