// What a rule asks of the steps before it and of the set, read item after item through the rule's view. Internal.
ghost use Rattle.std.specs.Prelude.{◌<◌, ◌≡◌, true, length};
ghost use Rattle.theory.specs.Rule.{count, rule as rule_of};
ghost use Rattle.items.specs.Item.{narrow, max_facts, has};
ghost use Rattle.reader.specs.Questions.{program_of};
ghost use Rattle.reader.specs.Scanned.{Tabled};
ghost use Rattle.proofcheck.specs.Steps.{rule_fits, RuleMarked};
ghost use Rattle.proofcheck.specs.Viewed.{rule_ahead, MayView, MayAsk, ItemAnswered, Fitted};

use items::item::{MAX_FACTS, RuleId};
use marking::marks::BARRED;
use questions::fact_set::in_set;
use tables::layout::Tables;
use view::range::Own;

// Does an item fit? A premise is to be among the marked facts, a constraint outside them and outside the set: then it is marked.
fn ask_item(item: Own, set: &[u8], marks: &mut [u8; MAX_FACTS]) -> bool
    requires { MayAsk item marks.old }
    ensures { ItemAnswered (has set.now) marks.old item result marks.new }
{
    match item {
        Own::Premise(f) => in_set(marks, f),
        Own::Constraint(f) => {
            let number = f.0 as usize;
            let before = marks[number] == 1;
            if before {
                return false;
            }
            if in_set(set, f) {
                return false;
            }
            marks[number] = BARRED;
            true
        }
    }
}

// The rule whose own items stand in the range: its view is kept, and asked for one item after another; the
// work is done in `ask_item`.
fn view_fits(file: &[u8], at: usize, end: usize, set: &[u8], marks: &mut [u8; MAX_FACTS]) -> bool
    requires { MayView file.now at end marks.old }
    ensures { Fitted (has set.now) (rule_ahead file.now at) marks.old result marks.new }
{
    let mut view = view::view_of(file, at, end);
    while let Some(taken) = view::next_item(view) {
        if !ask_item(taken.item, set, marks) {
            return false;
        }
        view.at = taken.rest;
    }
    true
}

// Are the premises of the rule among the marked facts, and its constraints outside them and outside the set? Its constraints are marked.
pub fn rule_fits(
    file: &[u8],
    tables: &Tables,
    rule: RuleId,
    set: &[u8],
    marks: &mut [u8; MAX_FACTS],
) -> bool
    requires tabled { Tabled file.now tables.now.cells × (rule.0 < count (program_of file.now)) }
    requires marks_len { length marks.old ≡ max_facts narrow }
    ensures value { result ≡ rule_fits (has set.now) (has marks.old) (rule_of (program_of file.now) rule.0) }
    ensures rule_marked { result ≡ true → RuleMarked (rule_of (program_of file.now) rule.0) marks.old marks.new }
{
    let range = view::range::range_of(tables, rule);
    view_fits(file, range.at, range.end, set, marks)
}
