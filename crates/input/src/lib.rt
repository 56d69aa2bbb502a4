// The standard input of a program, read whole.

#![tactic(auto)]

ghost use Rattle.input.specs.Input.{Inside};

use items::item::MAX_BYTES;
use std::io::{self, Read};

// One byte more than a file may have, so that a file that is too long is told apart.
pub const INPUT_ROOM: usize = MAX_BYTES + 1;

// Reads to the end of the input, also where it comes in pieces, or until the room is full. Answers how many bytes were read.
pub fn read_input<R: std::io::Input>(rt: &R, room: &mut [u8]) -> io::Result<usize>
    ensures { Inside room.new result }
{
    let mut reader = rt.reader();
    let mut have: usize = 0;
    while have < room.len() {
        match reader.read(&mut room[have..])? {
            0 => return Ok(have),
            more => have += more,
        }
    }
    Ok(have)
}
