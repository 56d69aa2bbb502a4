// A row of bits: one is marked, and the lowest is taken. Internal.
ghost use Rattle.std.specs.Prelude.{ℕ, ◌/◌, ◌<◌, ◌≡◌, Bool, Some};
ghost use Rattle.theory.specs.Rule.{adjoin};
ghost use Rattle.items.specs.Item.{max_rules};
ghost use Rattle.bits.specs.Flags.{word_bits, Flags, Taken, Picked, Falls, NoneBefore, TakenBehind};

use crate::word::{bits_from, lowest_bit, with_bit, without_bit, without_lowest};
use items::item::MAX_RULES;

pub const WORD_BITS: usize = 64;

pub const ROW_WORDS: usize = MAX_RULES / WORD_BITS;

// Marks a place.
pub fn mark(row: &mut [u64; ROW_WORDS], place: usize)
    requires { place < max_rules }
    ensures { (p : ℕ → Bool) → Flags p row.old → Flags (adjoin p place) row.new }
{
    let at = place / WORD_BITS;
    row[at] = with_bit(row[at], place % WORD_BITS);
}

// Takes the lowest marked place out of the words of a row from one on.
fn take_behind(row: &mut [u64; ROW_WORDS], from: usize) -> Option<usize>
    ensures { TakenBehind from result row.old row.new }
{
    for at in from..ROW_WORDS {
        let word = row[at];
        if word != 0 {
            row[at] = without_lowest(word);
            return Some(at * WORD_BITS + lowest_bit(word));
        }
    }
    None
}

// Takes the lowest marked place out of a row whose words before one are all 0. So are those before the word of the place that was taken: who takes one
// after the other goes on from there.
pub fn take_from(row: &mut [u64; ROW_WORDS], from: usize) -> Option<usize>
    requires { NoneBefore from row.old }
    ensures falls { Falls result row.old row.new }
    ensures by_index { (p : ℕ → Bool) → Flags p row.old → Taken p result row.new }
    ensures by_index_2 { (i : ℕ) → result ≡ Some i → NoneBefore (i / word_bits) row.new }
{
    take_behind(row, from)
}

// Takes some marked place out of a row: the lowest from a place on, or else the lowest of all. So who goes on from behind the place that was taken comes
// to every place in turn.
pub fn take_next(row: &mut [u64; ROW_WORDS], from: usize) -> Option<usize>
    ensures falls { Falls result row.old row.new }
    ensures by_index { (p : ℕ → Bool) → Flags p row.old → Picked p result row.new }
{
    let at = from / WORD_BITS;
    if at < ROW_WORDS {
        let word = row[at];
        let upper = bits_from(word, from % WORD_BITS);
        if upper != 0 {
            let bit = lowest_bit(upper);
            row[at] = without_bit(word, bit);
            return Some(at * WORD_BITS + bit);
        }
    }
    match take_behind(row, at + 1) {
        None => take(row),
        place => place,
    }
}

// Takes the lowest marked place out of the row.
pub fn take(row: &mut [u64; ROW_WORDS]) -> Option<usize>
    ensures falls { Falls result row.old row.new }
    ensures by_index { (p : ℕ → Bool) → Flags p row.old → Taken p result row.new }
{
    take_from(row, 0)
}
