// The grounds for a fact: reads a rule file from standard input and writes the steps that the fact stands on.

#![tactic(auto)]

use grounds_text::kept::LINES_ROOM;
use input::INPUT_ROOM;
use std::io;

// The number that the program was given as its one word.
fn asked(rt: &HostRuntime) -> Option<u32> {
    if arguments::count(rt) != 1 {
        return None;
    }
    arguments::number_at(rt, 1)
}

// Writes the text for a fact by the file on standard input. Where it cannot be read there is nothing to write. As the panel reads and writes: one function for both would take
// a closure and the lengths of two rooms in place of these lines.
fn show_grounds(rt: &HostRuntime, fact: u32) -> io::Result<()> {
    let mut room = [0u8; INPUT_ROOM];
    let Ok(n) = input::read_input(rt, &mut room) else {
        return Ok(());
    };
    let mut text = [0u8; LINES_ROOM];
    let length = grounds_text::render(&room[..n], fact, &mut text);
    rt.stdout().write_all(&text[..length])
}

fn main(rt: HostRuntime) -> io::Result<()> {
    let Some(fact) = asked(&rt) else {
        return rt.stderr().write_all(b"usage: grounds FACT <RULES\n");
    };
    show_grounds(&rt, fact)
}
