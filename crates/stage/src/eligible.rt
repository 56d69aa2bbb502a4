// The first eligible rule of an order, and its stage. Internal.
ghost use Rattle.std.specs.Prelude.{ℕ, ◌≡◌, Bool};
ghost use Rattle.theory.specs.Rule.{in_force, plain_rules};
ghost use Rattle.theory.specs.Run.{Stand};
ghost use Rattle.tables.specs.Held.{held};
ghost use Rattle.premises.specs.Plain.{mask_in, PlainIndexed};
ghost use Rattle.stage.specs.Look.{Looking, Stands, Looked};

use crate::staged::Stage;
use crate::trial::trial;
use bits::row::{ROW_WORDS, take};
use items::item::{MAX_FACTS, MAX_RULES, RuleId};
use marking::marks::{BARRED, IN};
use premises::plain::PLAIN_WORDS;
use tables::layout::{Tables, wide};
use tables::own::in_file_order;

// Takes the awake places of the order in turn, up to the first whose rule is eligible, and makes its stage.
// The rules fired stand in a row of fixed length, since there is no heap: `count` is how many there are, and the place of the next.
pub fn first_eligible(
    tables: &Tables,
    row: &[u16],
    index: &[u64; PLAIN_WORDS],
    marks: &mut [u8; MAX_FACTS],
    missing: &mut [u16; MAX_RULES],
    fired: &mut [u16; MAX_FACTS],
    count: usize,
    awake: &mut [u64; ROW_WORDS],
) -> Option<Stage>
    requires plain_indexed { PlainIndexed (held tables.now) index.now × (mask_in index.now ≡ plain_rules (held tables.now) (in_force (held tables.now))) }
    requires stands { Stands (held tables.now) row.now marks.old missing.old fired.old count awake.old }
    ensures { (s : Stand) (p : ℕ → Bool) → Looking (held tables.now) row.now marks.old missing.old fired.old count awake.old s p → Looked (held tables.now) row.now s count result marks.new missing.new fired.new awake.new }
{
    let found = 'rules: loop {
        let Some(place) = take(awake) else {
            break 'rules None;
        };
        let rule = RuleId(row[place]);
        // A withheld rule of the order: "the run passes over them".
        let withheld = tables.is_withheld(rule);
        if withheld {
            continue 'rules;
        }
        let fact = tables.conclusion(rule);
        let f = usize::from(fact.0);
        if marks[f] == IN {
            continue 'rules;
        }
        if marks[f] == BARRED {
            continue 'rules;
        }
        let own = tables.constraints(rule);
        for at in 0..own.len() {
            let constraint = in_file_order(own, at);
            let met = marks[wide(constraint)] == IN;
            if met {
                continue 'rules;
            }
        }
        // Its constraints may still be met by the closure with its conclusion, which holds more than D.
        if let Some(steps) = trial(tables, index, rule, marks, missing, fired, count) {
            break 'rules Some(Stage { rule, steps });
        }
    };
    found
}
