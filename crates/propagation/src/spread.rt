// One literal after another is taken as true. Internal.
ghost use Rattle.std.specs.Prelude.{ℕ, ◌<◌, ◌≡◌};
ghost use Rattle.theory.specs.Rule.{count};
ghost use Rattle.theory.specs.Conditions.{every_rule};
ghost use Rattle.items.specs.Item.{has};
ghost use Rattle.tables.specs.Held.{held};
ghost use Rattle.index.specs.Literal.{literals, outside};
ghost use Rattle.index.specs.Cells.{on_in};
ghost use Rattle.index.specs.Index.{Indexed, askers};
ghost use Rattle.propagation.specs.State.{Stacked, Spreading, Between, Waited, Concluded, Onward, Settled, told};

use bits::matrix::row_of;
use bits::row::{WORD_BITS, take_from};
use index::cells::{INDEX_WORDS, LITERALS};
use items::item::{MAX_RULES, RuleId};
use tables::layout::Tables;

// The mark of a literal: true with all its rules told, or on the stack. 0 is neither.
// Numbers and no enum: what the marks hold of the facts is read as a set of facts, in the form of the sets of callers, 1 in and 0 out.
pub const TRUE: u8 = 1;

pub const WAITING: u8 = 2;

// Puts a literal on the stack, unless it is true or waits already. Answers how many the stack has.
// The stack is a row of fixed length, since there is no heap: `top` is how many it has and the place of the next, in all that follows.
pub fn wait(
    marks: &mut [u8; LITERALS],
    stack: &mut [u16; LITERALS],
    top: usize,
    literal: usize,
) -> usize
    requires { (literal < literals) × Stacked marks.old stack.old top }
    ensures { Waited literal marks.old top marks.new stack.new result }
{
    if marks[literal] != 0 {
        return top;
    }
    marks[literal] = WAITING;
    stack[top] = literal as u16;
    top + 1
}

// Puts the conclusion of a rule on the stack, unless it is true or waits already. Answers how many the stack has.
pub fn conclude(
    tables: &Tables,
    rule: usize,
    marks: &mut [u8; LITERALS],
    stack: &mut [u16; LITERALS],
    top: usize,
) -> usize
    requires rule_bound { (rule < count (held tables.now)) × Stacked marks.old stack.old top }
    ensures { Concluded (held tables.now) rule marks.old top marks.new stack.new result }
{
    let fact = tables.conclusion(RuleId(rule as u16));
    wait(marks, stack, top, fact.0 as usize)
}

// Tells the rules that ask a literal that it is true: each misses one literal less, and one that misses nothing has its conclusion.
fn tell(
    tables: &Tables,
    index: &[u64; INDEX_WORDS],
    literal: usize,
    marks: &mut [u8; LITERALS],
    missing: &mut [u16; MAX_RULES],
    stack: &mut [u16; LITERALS],
    top: usize,
) -> usize
    requires indexed { Indexed (held tables.now) index.now }
    requires literal_known { literal < literals }
    requires spreading { Spreading (held tables.now) (on_in index.now) every_rule (askers (held tables.now) (on_in index.now) literal) marks.old missing.old stack.old top }
    ensures between { Between (held tables.now) (on_in index.now) marks.new missing.new stack.new result }
    ensures onward { Onward marks.old top marks.new result }
{
    let mut left = row_of(index, literal);
    let mut from: usize = 0;
    let mut top = top;
    while let Some(rule) = take_from(&mut left, from) {
        from = rule / WORD_BITS;
        missing[rule] -= 1;
        if missing[rule] == 0 {
            top = conclude(tables, rule, marks, stack, top);
        }
    }
    top
}

// Takes all that waits as true.
pub fn spread(
    tables: &Tables,
    index: &[u64; INDEX_WORDS],
    marks: &mut [u8; LITERALS],
    missing: &mut [u16; MAX_RULES],
    stack: &mut [u16; LITERALS],
    top: usize,
)
    requires indexed { Indexed (held tables.now) index.now }
    requires between { Between (held tables.now) (on_in index.now) marks.old missing.old stack.old top }
    ensures settled { Settled (held tables.now) (on_in index.now) marks.new missing.new }
    ensures by_index { (k : ℕ) → has marks.new (outside k) ≡ told marks.old (outside k) }
{
    let mut top = top;
    while top > 0 {
        top -= 1;
        let literal = stack[top] as usize;
        if marks[literal] == WAITING {
            marks[literal] = TRUE;
            top = tell(tables, index, literal, marks, missing, stack, top);
        }
    }
}
