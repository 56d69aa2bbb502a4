// The judge: is a set of facts stable for a file less some listed exception rules?

#![tactic(auto)]

ghost use Rattle.std.specs.Prelude.{◌≡◌};
ghost use Rattle.tables.specs.Held.{held};
ghost use Rattle.judge.specs.Judged.{judged, JudgeMeans};
ghost use Rattle.judge.specs.JudgedOf.{judged_of};

mod stable;

use items::item::MAX_RULES;
use items::refusal::Refusal;
use tables::layout::Tables;

// Judges a set, is it stable: the questions of the file, then of the list, then of the set.
pub fn judge(file: &[u8], list: &[u8], set: &[u8]) -> Result<bool, Refusal>
    ensures value { result ≡ judged file.now list.now set.now }
    ensures judge_means { JudgeMeans file.now list.now set.now result }
{
    let mut tables = Tables::empty();
    reader::scan::scan(file, &mut tables)?;
    judge_program(&tables, list, set)
}

// The questions on the list and on the set, for the program of an accepted file, and then the test. Internal.
fn judge_program(tables: &Tables, list: &[u8], set: &[u8]) -> Result<bool, Refusal>
    ensures { result ≡ judged_of (held tables.now) list.now set.now }
{
    // A row of bytes, since `has` reads it as a set, 1 in and 0 out.
    let mut listed = [0u8; MAX_RULES];
    naming::order::ask_listed(tables, list, &mut listed)?;
    questions::fact_set::ask_set_of(tables.facts(), set)?;
    Ok(stable::is_stable(tables, &listed, set))
}
