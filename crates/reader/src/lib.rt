// Asks of a rule file whether it is accepted, and fills the tables of its program.

#![tactic(auto)]

ghost use Rattle.std.specs.Prelude.{◌≡◌};
ghost use Rattle.reader.specs.Accept.{accept_of, AcceptNumbers};

pub mod answer;
pub mod scan;
mod step;
mod unread;

use answer::{AcceptedFile, FileCounts};
use items::refusal::Refusal;
use marking::marks::count_constraint_facts;
use tables::layout::Tables;

// Is the file accepted? If so, how many facts, rules, exception rules and constraint facts does it have? Else the first no.
pub fn accept(file: &[u8]) -> Result<AcceptedFile, Refusal>
    ensures value { result ≡ accept_of file.now }
    ensures accept_numbers { AcceptNumbers file.now result }
{
    if unread::begins_unread(file) {
        return accept_unread(file);
    }
    let mut tables = Tables::empty();
    let counts = scan::scan(file, &mut tables)?;
    Ok(file_with(counts, counts.constrained))
}

// The same of a file that may have unread facts: its constraint facts are counted from its tables. The other files need no tables here, and the compiler leaves them
// out. Internal.
fn accept_unread(file: &[u8]) -> Result<AcceptedFile, Refusal>
    ensures { result ≡ accept_of file.now }
{
    let mut tables = Tables::empty();
    let counts = scan::scan(file, &mut tables)?;
    Ok(file_with(counts, count_constraint_facts(&tables)))
}

// An accepted file of these counts, with so many constraint facts.
fn file_with(counts: FileCounts, constraints: u16) -> AcceptedFile
    ensures { (result.facts ≡ counts.facts) × (result.rules ≡ counts.rules) × (result.exceptions ≡ counts.exceptions) × (result.constraints ≡ constraints) }
{
    AcceptedFile {
        facts: counts.facts,
        rules: counts.rules,
        exceptions: counts.exceptions,
        constraints,
    }
}
