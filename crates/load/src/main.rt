// A test load: writes the rule file that is drawn from three numbers.

#![tactic(auto)]

use generator::LOAD_ROOM;
use std::io;

// Writes the file, or the number of the refusal.
fn write_load(rt: &HostRuntime, start: u32, facts: u32, rules: u32) -> io::Result<()> {
    let mut room = [0u8; LOAD_ROOM];
    match generator::load_in_room(start, facts, rules, &mut room) {
        Err(r) => {
            let number = r.number();
            eprintln!(rt; "E {number}")
        }
        Ok(bytes) => {
            let length = usize::from(bytes);
            rt.stdout().write_all(&room[..length])
        }
    }
}

// Three words that are numbers, and no others.
fn asked(rt: &HostRuntime) -> Option<(u32, u32, u32)> {
    if arguments::count(rt) != 3 {
        return None;
    }
    Some((
        arguments::number_at(rt, 1)?,
        arguments::number_at(rt, 2)?,
        arguments::number_at(rt, 3)?,
    ))
}

fn main(rt: HostRuntime) -> io::Result<()> {
    let Some((start, facts, rules)) = asked(&rt) else {
        return rt
            .stderr()
            .write_all(b"usage: load START FACTS RULES >RULES-FILE\n");
    };
    write_load(&rt, start, facts, rules)
}
