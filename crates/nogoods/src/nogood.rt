// Nogoods, and the guesses that they leave. Internal.
ghost use Rattle.std.specs.Prelude.{ℕ, ◌<◌, ◌≤◌, ◌%◌, ◌^◌, ◌≡◌, Bool, IsTrue, ◌↔◌};
ghost use Rattle.std.specs.Int.Bits.{bit_and};
ghost use Rattle.items.specs.Item.{max_guessed};
ghost use Rattle.nogoods.specs.Nogoods.{guesses, Passed, Stored};

use crate::guess::MAX_GUESSED;

// The most nogoods that are kept: what these do not decide is not decided by many more either.
pub const MOST_KEPT: usize = 80;

// No guess that has the value under the mask passes. The term is that of conflict-driven search.
#[derive(Clone, Copy)]
pub struct Nogood {
    pub mask: u32,
    pub value: u32,
}

impl Nogood {
    // Does it refute a guess?
    fn refutes(self, guess: u32) -> bool
        ensures { IsTrue result ↔ (bit_and guess self.mask ≡ self.value) }
    {
        guess & self.mask == self.value
    }
}

// How many of the lowest places a mask leaves free, as far as there are places.
fn free_places(mask: u32) -> usize
    ensures { (result ≤ max_guessed) × (mask % 2 ^ result ≡ 0) }
{
    MAX_GUESSED.min(mask.trailing_zeros() as usize)
}

// The first guess above one that differs from it under the mask. All between have the same value under it.
pub fn after(guess: u32, mask: u32) -> u32
    requires { guess < guesses }
    ensures lower_bound { (guess < result) × (result ≤ guesses) }
    ensures by_index { (x : ℕ) → guess ≤ x → x < result → bit_and x mask ≡ bit_and guess mask }
{
    let block = 1u32 << free_places(mask);
    (guess / block + 1) * block
}

// The first guess from one on that no nogood refutes, or one that is not before the end. None that is passed over passes the test.
pub fn next_open(nogoods: &[Nogood], from: u32, end: u32) -> u32
    requires { (from ≤ guesses) × (end ≤ guesses) }
    ensures lower_bound { (from ≤ result) × (result ≤ guesses) }
    ensures by_index { (pass : ℕ → Bool) → Stored pass nogoods.now → Passed pass from result }
{
    let mut guess = from;
    while guess < end {
        let Some(nogood) = nogoods.iter().find(|n| n.refutes(guess)) else {
            return guess;
        };
        guess = after(guess, nogood.mask);
    }
    guess
}
