// One case: the call that it asks for, in buffers of the lengths that it says, and whether the reply and every byte are as it expects.
use crate::read::{PLACES, number, row, wide};

// No buffer that a case lends is longer.
const ROOM: usize = 16384;

// The numbers of a reply; where it has fewer, the others are 0.
const NUMBERS: usize = 6;

// The first row of a case has numbers of two bytes: the operation, what every byte of the buffers is before, the asked fact in two halves, the lengths of the
// four buffers, and the reply.
const FILL: usize = 2;

const FACT: usize = 4;

const LENGTHS: usize = 8;

const REPLY: usize = 16;

// Operations are numbers, as the file of cases has them. The number that a question by itself replies. No case expects the last one, of an operation that there is not.
fn question(operation: u32, file: &[u8], row: &[u8], fact: u32) -> u32 {
    let answer = match operation {
        7 => naming::order::ask_order(file, row),
        8 => naming::order::ask_list(file, row),
        9 => questions::fact_set::ask_set(file, row),
        10 => questions::row::ask_row(file, fact, row),
        _ => return 65536,
    };
    match answer {
        Ok(()) => 0,
        Err(r) => r.number() as u32,
    }
}

// What an operation replies that is lent no buffer.
fn answer(operation: u32, file: &[u8], second: &[u8], third: &[u8], fact: u32) -> [u32; NUMBERS] {
    match operation {
        1 => {
            let a = retention::retention_accept(file);
            [
                a.refusal,
                a.facts,
                a.rules,
                a.exceptions,
                a.constraints,
                a.step_bytes,
            ]
        }
        3 => {
            let a = retention::retention_judge(file, second, third);
            [a.refusal, a.verdict, 0, 0, 0, 0]
        }
        4 => {
            let a = retention::retention_check(file, second, fact, third);
            [a.refusal, a.verdict, 0, 0, 0, 0]
        }
        _ => [question(operation, file, second, fact), 0, 0, 0, 0, 0],
    }
}

// Copies a row to the front of a buffer, as far as that goes.
fn copy(from: &[u8], to: &mut [u8]) {
    for (cell, &byte) in to.iter_mut().zip(from) {
        *cell = byte;
    }
}

// Which of two orders is the better, with the number by itself, and how many bytes are handed back: these are copied to a buffer, so that they are compared as what is written
// is.
fn better_reply<'a>(
    file: &[u8],
    first: &'a [u8],
    second: &'a [u8],
    o: &mut [u8],
) -> [u32; NUMBERS] {
    let a = retention::retention_better(file, first, second);
    let number = better::better_number(file, first, second);
    let back = better::better(file, first, second);
    copy(back, o);
    [
        a.refusal,
        a.which,
        number,
        (back.len() % 65536) as u32,
        0,
        0,
    ]
}

// What any operation replies, in the buffers that it is lent. The rows of the case stand at these places. A test load has its three numbers in the place of a
// file.
fn reply(
    bytes: &[u8],
    places: [usize; PLACES],
    f: &mut [u8],
    r: &mut [u8],
    s: &mut [u8],
    o: &mut [u8],
) -> [u32; NUMBERS] {
    let head = row(bytes, places[0]);
    let file = row(bytes, places[2]);
    let second = row(bytes, places[3]);
    let fact = wide(head, FACT);
    let operation = number(head, 0);
    match operation {
        2 => {
            let a = retention::retention_run(file, second, f, r, s);
            [a.refusal, a.stages, a.steps, 0, 0, 0]
        }
        5 => {
            let a = retention::retention_search(file, f, r, s, o);
            [a.refusal, a.stages, a.steps, 0, 0, 0]
        }
        6 => [retention::retention_panel(file, f), 0, 0, 0, 0, 0],
        11 => {
            let a = retention::retention_grounds(file, second, fact, f, r, s);
            [a.refusal, a.count, 0, 0, 0, 0]
        }
        12 => {
            let a = retention::retention_layered(file, o);
            [a.refusal, a.count, 0, 0, 0, 0]
        }
        13 => {
            let a = retention::retention_load(wide(file, 0), wide(file, 4), wide(file, 8), f);
            [a.refusal, a.count, 0, 0, 0, 0]
        }
        14 => better_reply(file, second, row(bytes, places[4]), o),
        _ => answer(operation, file, second, row(bytes, places[4]), fact),
    }
}

fn same_numbers(head: &[u8], reply: [u32; NUMBERS]) -> bool {
    for i in 0..NUMBERS {
        if reply[i] != number(head, REPLY + 2 * i) {
            return false;
        }
    }
    true
}

// A buffer holds the expected bytes, and past them what it held before.
fn holds(buffer: &[u8], bytes: &[u8], at: usize, fill: u8) -> bool {
    let front = row(bytes, at);
    if buffer.len() < front.len() {
        return false;
    }
    let n = front.len();
    &buffer[..n] == front && buffer[n..].iter().all(|&byte| byte == fill)
}

// The reply and the four buffers are as the case expects.
fn in_buffers(
    bytes: &[u8],
    places: [usize; PLACES],
    f: &mut [u8],
    r: &mut [u8],
    s: &mut [u8],
    o: &mut [u8],
) -> bool {
    let reply = reply(bytes, places, f, r, s, o);
    let head = row(bytes, places[0]);
    if !same_numbers(head, reply) {
        return false;
    }
    let fill = fill_of(head);
    if !holds(f, bytes, places[5], fill) {
        return false;
    }
    if !holds(r, bytes, places[6], fill) {
        return false;
    }
    if !holds(s, bytes, places[7], fill) {
        return false;
    }
    holds(o, bytes, places[8], fill)
}

// What every byte of the buffers is before.
fn fill_of(head: &[u8]) -> u8 {
    (number(head, FILL) % 256) as u8
}

// The case whose rows stand at these places.
pub fn agrees(bytes: &[u8], places: [usize; PLACES]) -> bool {
    let head = row(bytes, places[0]);
    let fill = fill_of(head);
    let facts = number(head, LENGTHS) as usize;
    let rules = number(head, LENGTHS + 2) as usize;
    let steps = number(head, LENGTHS + 4) as usize;
    let order = number(head, LENGTHS + 6) as usize;
    let mut f = [fill; ROOM];
    let mut r = [fill; ROOM];
    let mut s = [fill; ROOM];
    let mut o = [fill; ROOM];
    if facts <= ROOM {
        if rules <= ROOM {
            if steps <= ROOM {
                if order <= ROOM {
                    return in_buffers(
                        bytes,
                        places,
                        &mut f[..facts],
                        &mut r[..rules],
                        &mut s[..steps],
                        &mut o[..order],
                    );
                }
            }
        }
    }
    false
}
