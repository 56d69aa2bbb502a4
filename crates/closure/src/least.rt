// Deriving over lent marks. Internal.
ghost use Rattle.std.specs.Prelude.{ℕ, ◌≡◌, List, length};
ghost use Rattle.theory.specs.Derive.{lowest};
ghost use Rattle.items.specs.Item.{narrow, max_facts, has};
ghost use Rattle.tables.specs.Held.{held};
ghost use Rattle.premises.specs.Plain.{mask_in, PlainIndexed};
ghost use Rattle.closure.specs.Steps.{found_of};
ghost use Rattle.closure.specs.Room.{Room};
ghost use Rattle.closure.specs.Deriving.{Waits, Left, Poised, Deriving, Derived, Turned};

use crate::turn::Turn;
use bits::matrix::marked_in;
use bits::row::{ROW_WORDS, take};
use items::item::{MAX_FACTS, MAX_RULES, RuleId};
use marking::marks::{BARRED, IN};
use premises::plain::PLAIN_WORDS;
use premises::wake::enter;
use tables::layout::Tables;

// The lowest-numbered rule in force with its premises in the set and its conclusion not: those that wait are taken in turn, up to it.
fn lowest_ready(
    tables: &Tables,
    index: &[u64; PLAIN_WORDS],
    set: &[u8; MAX_FACTS],
    ready: &mut [u64; ROW_WORDS],
) -> Option<RuleId>
    requires plain_indexed { PlainIndexed (held tables.now) index.now × (length set.now ≡ max_facts narrow) }
    requires waits { Waits (held tables.now) (mask_in index.now) (has set.now) (has set.now) ready.old }
    ensures value { result ≡ found_of (lowest (held tables.now) (mask_in index.now) (has set.now)) }
    ensures left { Left (held tables.now) (mask_in index.now) (has set.now) result ready.new }
{
    while let Some(number) = take(ready) {
        let rule = RuleId(number as u16);
        if marked_in(index, MAX_FACTS, number) {
            let held = tables.conclusion_in(rule, set);
            if !held {
                return Some(rule);
            }
        }
    }
    None
}

// The next rule fires: its conclusion is marked, the rule is entered at a place, and the rules that ask the fact lack one premise less.
// The rules fired stand in a row of fixed length, since there is no heap: `to` is how many there are, and the place of the next.
fn fire(
    tables: &Tables,
    index: &[u64; PLAIN_WORDS],
    marks: &mut [u8; MAX_FACTS],
    missing: &mut [u16; MAX_RULES],
    ready: &mut [u64; ROW_WORDS],
    fired: &mut [u16; MAX_FACTS],
    to: usize,
) -> Turn
    requires plain_indexed { PlainIndexed (held tables.now) index.now }
    requires room { Room (held tables.now) marks.old to × (length fired.old ≡ max_facts narrow) }
    requires poised { Poised (held tables.now) (mask_in index.now) (has marks.old) missing.old ready.old }
    ensures { (marks₀ fired₀ : List ℕ) (at : ℕ) → Deriving (held tables.now) (mask_in index.now) marks₀ fired₀ at marks.old fired.old to → Turned (held tables.now) (mask_in index.now) marks₀ fired₀ at marks.old to result marks.new missing.new ready.new fired.new }
{
    let Some(rule) = lowest_ready(tables, index, marks, ready) else {
        return Turn::Done;
    };
    let fact = tables.conclusion(rule);
    let f = usize::from(fact.0);
    if marks[f] == BARRED {
        return Turn::Stopped;
    }
    marks[f] = IN;
    fired[to] = rule.0;
    enter(index, f, missing, ready);
    Turn::Fired
}

// Derives from the set of the marks by the rules in force, up to the first fact that is barred: marks each fact derived, and enters the rules
// fired in their order, from a place on. Answers the number of rules fired by then, or nothing where a barred fact would be derived.
pub fn derive(
    tables: &Tables,
    index: &[u64; PLAIN_WORDS],
    marks: &mut [u8; MAX_FACTS],
    missing: &mut [u16; MAX_RULES],
    ready: &mut [u64; ROW_WORDS],
    fired: &mut [u16; MAX_FACTS],
    at: usize,
) -> Option<usize>
    requires plain_indexed { PlainIndexed (held tables.now) index.now }
    requires room { Room (held tables.now) marks.old at × (length fired.old ≡ max_facts narrow) }
    requires poised { Poised (held tables.now) (mask_in index.now) (has marks.old) missing.old ready.old }
    ensures { Derived (held tables.now) (mask_in index.now) marks.old fired.old at result marks.new missing.new fired.new }
{
    let mut to = at;
    loop {
        match fire(tables, index, marks, missing, ready, fired, to) {
            Turn::Fired => {
                to += 1;
            }
            Turn::Done => {
                return Some(to);
            }
            Turn::Stopped => {
                return None;
            }
        }
    }
}
