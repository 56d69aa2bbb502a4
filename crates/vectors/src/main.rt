// Reads cases with the replies and the bytes that another implementation of the request expects, makes each call, and prints the verdict on
// each case that has a name, then the counts.

#![tactic(auto)]

ghost use Rattle.std.specs.Prelude.{◌≡◌, length};

mod report;

use replay::read::NEXT;
use report::COUNTS;
use std::io::Read;
use std::{fs, io};

// More than the file of cases has. What is past its end is 0, and ends it.
const ROOM: usize = 1441792;

// One case after another, up to an empty row. Answers the place of that row.
fn try_all(rt: &HostRuntime, bytes: &[u8], counts: &mut [u32; COUNTS]) -> io::Result<usize> {
    let mut at: usize = 0;
    for _ in 0..65536u32 {
        let head = replay::read::row(bytes, at);
        if head.is_empty() {
            return Ok(at);
        }
        let places = replay::read::places(bytes, at);
        let same = replay::call::agrees(bytes, places);
        report::verdict(rt, replay::read::row(bytes, places[1]), at, same)?;
        let mut k = 2 * (replay::read::number(head, 0) as usize);
        if !same {
            k += 1;
        }
        if k < COUNTS {
            counts[k] = std::num::wrapping_add_u32(counts[k], 1);
        }
        at = places[NEXT];
    }
    Ok(at)
}

// The contract gives the length alone, which lending it as a slice needs.
fn room() -> [u8; ROOM]
    ensures { 1441792 ≡ length result }
{
    [0; ROOM]
}

// Reads a file up to its end, or until the room is full.
fn fill<R: Read>(file: &mut R, room: &mut [u8]) -> io::Result<()> {
    let mut have: usize = 0;
    while have < room.len() {
        let more = file.read(&mut room[have..])?;
        if more == 0 {
            return Ok(());
        }
        have += more;
    }
    Ok(())
}

fn main(rt: HostRuntime) -> io::Result<()> {
    let mut room = room();
    let mut file = fs::open(&rt, "vectors.bin")?;
    fill(&mut file, &mut room)?;
    let mut counts = [0u32; COUNTS];
    let end = try_all(&rt, &room, &mut counts)?;
    report::counts(&rt, &room, end, &counts)
}
