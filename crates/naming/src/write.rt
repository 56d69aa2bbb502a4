// Orders and lists that are written. Internal.
ghost use Rattle.std.specs.Prelude.{◌≤◌};
ghost use Rattle.items.specs.Item.{max_rules};
ghost use Rattle.questions.specs.Questions.{naming};
ghost use Rattle.theory.specs.Places.{places_marked};
ghost use Rattle.questions.specs.Put.{Fits, Put};

use items::item::{MAX_RULES, RuleId};
use items::lengths::NAME_WIDTH;

// An item for each rule below the count that has the mark, ascending, from a place of the buffer on. Answers the place behind them.
pub fn write_names(
    marks: &[u8; MAX_RULES],
    mark: u8,
    count: usize,
    out: &mut [u8],
    from: usize,
) -> usize
    requires count_le_max_rules { count ≤ max_rules }
    requires fits { Fits (naming (places_marked mark marks.now count)) from out.old }
    ensures { Put (naming (places_marked mark marks.now count)) from out.old result out.new }
{
    let mut at = from;
    for i in 0..count {
        if marks[i] == mark {
            items::write::write_rule_item(out, at, RuleId(i as u16));
            at += NAME_WIDTH;
        }
    }
    at
}
