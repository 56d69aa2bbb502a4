// The words that a program is given.

#![tactic(auto)]

use std::env::{Env, FillError};
use words::LONGEST_NUMBER;

// One byte more than a number may have, so that a longer word is told apart.
const WORD_ROOM: usize = LONGEST_NUMBER + 1;

// The number that a word says, by its place: 1 is the first behind the program's name. A word that is missing or longer than the room is no number.
pub fn number_at<R: Env>(rt: &R, place: usize) -> Option<u32> {
    let mut word = [0u8; WORD_ROOM];
    let n = rt.arg(place, &mut word).ok()?;
    words::number_of(&word[..n])
}

// How many there are, without the program's name.
pub fn count<R: Env>(rt: &R) -> usize {
    let mut word = [0u8; WORD_ROOM];
    for place in 1..usize::MAX {
        if let Err(FillError::NotPresent) = rt.arg(place, &mut word) {
            return place - 1;
        }
    }
    usize::MAX - 1
}
