// One walk along the steps of a row, in which each step's rule is read once. Internal.
ghost use Rattle.std.specs.Prelude.{◌≡◌, true, length};
ghost use Rattle.theory.specs.Rule.{in_force};
ghost use Rattle.theory.specs.Check.{is_proof};
ghost use Rattle.items.specs.Item.{narrow, max_facts, has};
ghost use Rattle.reader.specs.Questions.{program_of};
ghost use Rattle.reader.specs.Scanned.{Tabled};
ghost use Rattle.questions.specs.Questions.{row_of};
ghost use Rattle.marking.specs.Marks.{barred_in};
ghost use Rattle.proofcheck.specs.Steps.{step_fits, StepMarked, Unmarked};

use cursors::cursor::{Cursor, Read, Row};
use items::item::{FactId, Item, MAX_FACTS, RuleId};
use marking::marks::BARRED;
use tables::layout::Tables;

// Does the step hold after those before it, and no constraint so far meet a fact so far or the set? Its fact is marked.
fn step_fits(
    file: &[u8],
    tables: &Tables,
    fact: FactId,
    rule: RuleId,
    set: &[u8],
    marks: &mut [u8; MAX_FACTS],
) -> bool
    requires tabled { Tabled file.now tables.now.cells }
    requires marks_len { length marks.old ≡ max_facts narrow }
    ensures value { result ≡ step_fits (program_of file.now) (has set.now) (has marks.old) (barred_in marks.old) (record { fact = fact.0; by = rule.0 }) }
    ensures step_marked { result ≡ true → StepMarked (program_of file.now) (record { fact = fact.0; by = rule.0 }) marks.old marks.new }
{
    if tables.rules() <= rule.0 as usize {
        return false;
    }
    // A row with a step by a withheld rule "is no proof".
    if tables.is_withheld(rule) {
        return false;
    }
    let concluded = tables.conclusion(rule);
    if concluded != fact {
        return false;
    }
    let number = fact.0 as usize;
    if !crate::own::rule_fits(file, tables, rule, set, marks) {
        return false;
    }
    if marks[number] == BARRED {
        return false;
    }
    marks[number] = 1;
    true
}

// Is the row a proof of the fact that the set admits? An empty row has no last step.
pub fn row_proves(
    file: &[u8],
    tables: &Tables,
    set: &[u8],
    fact: FactId,
    proof: &[u8],
    marks: &mut [u8; MAX_FACTS],
) -> bool
    requires tabled { Tabled file.now tables.now.cells }
    requires unmarked { Unmarked marks.old }
    ensures { result ≡ is_proof (program_of file.now) (in_force (program_of file.now)) (has set.now) (row_of proof.now) fact.0 }
{
    let mut ends = false;
    let mut cursor = Cursor::start(Row::Steps);
    while let Read::Found(item, next) = cursor.next_step(proof) {
        if let Item::Step(f, rule) = item {
            if !step_fits(file, tables, f, rule, set, marks) {
                return false;
            }
            let asked = f == fact;
            ends = asked;
        }
        cursor = next;
    }
    ends
}
