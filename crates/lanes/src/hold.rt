// The guesses of a block, as the facts that each lane holds out. Internal.
ghost use Rattle.std.specs.Prelude.{ℕ, ◌+◌, ◌*◌, ◌<◌, ◌≤◌, ◌≡◌, true, ltb, length};
ghost use Rattle.theory.specs.Rule.{all, NoRepeat};
ghost use Rattle.theory.specs.Guesses.{bit};
ghost use Rattle.items.specs.Item.{narrow, max_facts, max_guessed};
ghost use Rattle.bits.specs.Flags.{word_bits};
ghost use Rattle.lanes.specs.Lanes.{lane_cells, blocks};
ghost use Rattle.lanes.specs.Held.{BlockHeld, BaseHeld, FactHeld};

use crate::words::{EVERY_LANE, LANE_CELLS, LANE_WORDS, put};
use index::cells::LITERALS;
use items::item::MAX_FACTS;

// The bit of a place in the 64 guesses of a word, the lanes of the word in their order: the guesses of word n begin at 64 n.
fn guess_word(number: usize, place: usize) -> u64
    requires { place < max_guessed }
    ensures { (t : ℕ) → t < word_bits → bit result t ≡ bit (number * word_bits + t) place }
{
    match place {
        0 => 0xAAAAAAAAAAAAAAAA,
        1 => 0xCCCCCCCCCCCCCCCC,
        2 => 0xF0F0F0F0F0F0F0F0,
        3 => 0xFF00FF00FF00FF00,
        4 => 0xFFFF0000FFFF0000,
        5 => 0xFFFFFFFF00000000,
        _ => {
            if (number >> (place - 6)) % 2 == 1 {
                EVERY_LANE
            } else {
                0
            }
        }
    }
}

// Holds a fact out in the lanes whose guess lacks the bit of its place.
fn hold_fact(outs: &mut [u64; LANE_CELLS], fact: usize, block: usize, place: usize)
    requires { (fact < max_facts narrow) × (place < max_guessed) × (block < blocks) }
    ensures { FactHeld fact block place outs.old outs.new }
{
    let mut own = [0u64; LANE_WORDS];
    let first = block * LANE_WORDS;
    for w in 0..LANE_WORDS {
        own[w] = guess_word(first + w, place) ^ EVERY_LANE;
    }
    put(outs, fact, &own);
}

// Holds out in each lane of a block the facts of the row that its guess leaves out.
pub fn hold_block(row: &[u16], block: usize, outs: &mut [u64; LANE_CELLS])
    requires { (length row.now ≤ max_guessed) × (all (λ k. ltb k (max_facts narrow)) row.now ≡ true) × NoRepeat row.now × (block < blocks) }
    ensures { BlockHeld row.now block outs.old outs.new }
{
    for place in 0..row.len() {
        let fact = row[row.len() - 1 - place] as usize;
        hold_fact(outs, fact, block, place);
    }
}

// Holds out in every lane the facts that are held out at the base, and no other.
pub fn hold_base(base: &[u8; LITERALS], outs: &mut [u64; LANE_CELLS])
    requires { length outs.old ≡ lane_cells }
    ensures { BaseHeld base.now outs.new }
{
    for fact in 0..MAX_FACTS {
        let word = if base[MAX_FACTS + fact] == 1 {
            EVERY_LANE
        } else {
            0
        };
        put(outs, fact, &[word; LANE_WORDS]);
    }
}
