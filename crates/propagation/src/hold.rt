// Facts are held out. Internal.
ghost use Rattle.std.specs.Prelude.{◌≤◌, ◌≡◌, true, not, length, take, drop, ltb};
ghost use Rattle.theory.specs.Rule.{all, keep, up_to};
ghost use Rattle.items.specs.Item.{narrow, max_facts, has};
ghost use Rattle.tables.specs.Held.{held};
ghost use Rattle.index.specs.Cells.{on_in};
ghost use Rattle.index.specs.Index.{Indexed};
ghost use Rattle.propagation.specs.State.{Settled, HeldToo};

use crate::spread::{spread, wait};
use index::cells::{INDEX_WORDS, LITERALS};
use items::item::{MAX_FACTS, MAX_RULES};
use marking::marks::IN;
use tables::layout::Tables;

// Holds out the facts of a row from one place up to another, and derives what follows.
// The row is lent whole, with the two places beside it: a descent holds out one fact of it at a time.
pub fn hold_out(
    tables: &Tables,
    index: &[u64; INDEX_WORDS],
    facts: &[u16],
    from: usize,
    to: usize,
    marks: &mut [u8; LITERALS],
    missing: &mut [u16; MAX_RULES],
)
    requires indexed { Indexed (held tables.now) index.now }
    requires settled { Settled (held tables.now) (on_in index.now) marks.old missing.old }
    requires to_in_bounds { (to ≤ length facts.now) × (all (λ k. ltb k (max_facts narrow)) facts.now ≡ true) }
    ensures settled_2 { Settled (held tables.now) (on_in index.now) marks.new missing.new }
    ensures held_too { HeldToo marks.old (drop from (take to facts.now)) marks.new }
{
    let mut stack = [0u16; LITERALS];
    let mut top: usize = 0;
    for n in from..to {
        top = wait(marks, &mut stack, top, MAX_FACTS + facts[n] as usize);
    }
    spread(tables, index, marks, missing, &mut stack, top);
}

// Holds out the facts that are not in a set, and derives what follows.
pub fn hold_absent(
    tables: &Tables,
    index: &[u64; INDEX_WORDS],
    set: &[u8],
    marks: &mut [u8; LITERALS],
    missing: &mut [u16; MAX_RULES],
)
    requires indexed { Indexed (held tables.now) index.now }
    requires settled { Settled (held tables.now) (on_in index.now) marks.old missing.old }
    requires tables_in_bounds { (held tables.now).facts ≤ length set.now }
    ensures settled_2 { Settled (held tables.now) (on_in index.now) marks.new missing.new }
    ensures held_too { HeldToo marks.old (keep (λ k. not (has set.now k)) (up_to (held tables.now).facts)) marks.new }
{
    let facts = tables.facts();
    let mut stack = [0u16; LITERALS];
    let mut top: usize = 0;
    for (f, &mark) in set[..facts].iter().enumerate() {
        if mark != IN {
            top = wait(marks, &mut stack, top, MAX_FACTS + f);
        }
    }
    spread(tables, index, marks, missing, &mut stack, top);
}
