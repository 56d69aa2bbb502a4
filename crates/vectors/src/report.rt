// What is printed: a line for each case that has a name, and for each that differs; at the end a line for each operation.
use replay::read::{past, row};
use std::io;

// Operations are counted from 1 on.
const OPERATIONS: usize = 15;

// For each, how many of its cases agreed and how many differed.
pub const COUNTS: usize = 2 * OPERATIONS;

// A case that differs is told by its place too, since it may have no name.
pub fn verdict(rt: &HostRuntime, name: &[u8], at: usize, same: bool) -> io::Result<()> {
    if same {
        if name.len() == 0 {
            return Ok(());
        }
        print!(rt; "agrees  ")?;
    } else {
        print!(rt; "DIFFERS {at} ")?;
    }
    rt.stdout().write_all(name)?;
    println!(rt; "")
}

fn line(rt: &HostRuntime, name: &[u8], agreed: u32, differed: u32) -> io::Result<()> {
    rt.stdout().write_all(name)?;
    println!(rt; ": {agreed} agree, {differed} differ")
}

// Past the empty row stand the names of the operations.
pub fn counts(
    rt: &HostRuntime,
    bytes: &[u8],
    end: usize,
    counts: &[u32; COUNTS],
) -> io::Result<()> {
    let mut at = past(bytes, end);
    for k in 1..OPERATIONS {
        line(rt, row(bytes, at), counts[2 * k], counts[2 * k + 1])?;
        at = past(bytes, at);
    }
    Ok(())
}
