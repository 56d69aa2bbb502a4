// Eight words for each fact. Internal.
ghost use Rattle.std.specs.Prelude.{◌<◌};
ghost use Rattle.items.specs.Item.{narrow, max_facts};
ghost use Rattle.lanes.specs.Lanes.{Put, Met, Joined};

use bits::row::WORD_BITS;
use items::item::MAX_FACTS;

// The words of a fact, and of all facts.
pub const LANE_WORDS: usize = 8;

pub const LANE_CELLS: usize = MAX_FACTS * LANE_WORDS;

// How many guesses are looked at together.
pub const LANES: usize = LANE_WORDS * WORD_BITS;

// A word with all lanes.
pub const EVERY_LANE: u64 = 18446744073709551615;

// Gives a fact its words.
pub fn put(words: &mut [u64; LANE_CELLS], fact: usize, own: &[u64; LANE_WORDS])
    requires { fact < max_facts narrow }
    ensures { Put fact own.now words.old words.new }
{
    let from = fact * LANE_WORDS;
    words[from..from + LANE_WORDS].copy_from_slice(own);
}

// Keeps the lanes that a fact has too.
pub fn meet(words: &[u64; LANE_CELLS], fact: usize, body: &mut [u64; LANE_WORDS])
    requires { fact < max_facts narrow }
    ensures { Met fact words.now body.old body.new }
{
    let from = fact * LANE_WORDS;
    for w in 0..LANE_WORDS {
        body[w] &= words[from + w];
    }
}

// Gives a fact the lanes of a body. Were some new?
// The bool answers that question itself: nothing else is handed out with it.
pub fn join(words: &mut [u64; LANE_CELLS], fact: usize, body: &[u64; LANE_WORDS]) -> bool
    requires { fact < max_facts narrow }
    ensures { Joined fact body.now words.old words.new result }
{
    let from = fact * LANE_WORDS;
    let mut new: u64 = 0;
    for w in 0..LANE_WORDS {
        let before = words[from + w];
        let after = before | body[w];
        words[from + w] = after;
        new |= before ^ after;
    }
    new != 0
}
