// The first lane whose guess fits, and what it derives. Internal.
ghost use Rattle.std.specs.Prelude.{ℕ, ◌<◌, ◌/◌, ◌%◌, ◌≡◌, true, ltb, length};
ghost use Rattle.theory.specs.Rule.{all};
ghost use Rattle.theory.specs.Guesses.{bit};
ghost use Rattle.items.specs.Item.{narrow, max_facts, has};
ghost use Rattle.bits.specs.Flags.{word_bits};
ghost use Rattle.lanes.specs.Lanes.{lane_words, lane_count, lane_in};
ghost use Rattle.lanes.specs.Fit.{agrees, FirstFit};

use crate::words::{EVERY_LANE, LANE_CELLS, LANE_WORDS};
use bits::row::WORD_BITS;
use bits::word::lowest_bit;
use items::item::MAX_FACTS;
use marking::marks::IN;

// The lanes of one word in which each fact of the row is derived exactly where it is not held out.
fn fit_word(row: &[u16], derived: &[u64; LANE_CELLS], outs: &[u64; LANE_CELLS], word: usize) -> u64
    requires { (word < lane_words) × (all (λ k. ltb k (max_facts narrow)) row.now ≡ true) }
    ensures { (t : ℕ) → t < word_bits → bit result t ≡ agrees row.now derived.now outs.now word t }
{
    let mut fits = EVERY_LANE;
    for &fact in row {
        let at = fact as usize * LANE_WORDS + word;
        fits &= derived[at] ^ outs[at];
    }
    fits
}

// The first lane whose guess fits.
pub fn first_fit(
    row: &[u16],
    derived: &[u64; LANE_CELLS],
    outs: &[u64; LANE_CELLS],
) -> Option<usize>
    requires { all (λ k. ltb k (max_facts narrow)) row.now ≡ true }
    ensures { FirstFit row.now derived.now outs.now result }
{
    for w in 0..LANE_WORDS {
        let fits = fit_word(row, derived, outs, w);
        if fits != 0 {
            return Some(w * WORD_BITS + lowest_bit(fits));
        }
    }
    None
}

// Is a lane set in a word?
fn has_lane(word: u64, lane: usize) -> bool
    requires { lane < word_bits }
    ensures { result ≡ bit word lane }
{
    (word >> lane) % 2 == 1
}

// The marks of the facts that a lane derives.
pub fn mark_lane(derived: &[u64; LANE_CELLS], lane: usize) -> [u8; MAX_FACTS]
    requires { lane < lane_count }
    ensures found_len { length result ≡ max_facts narrow }
    ensures by_index { (f : ℕ) → f < max_facts narrow → has result f ≡ lane_in derived.now (lane / word_bits) (lane % word_bits) f }
{
    let word = lane / WORD_BITS;
    let bit = lane % WORD_BITS;
    let mut found = [0u8; MAX_FACTS];
    for fact in 0..MAX_FACTS {
        if has_lane(derived[fact * LANE_WORDS + word], bit) {
            found[fact] = IN;
        }
    }
    found
}
