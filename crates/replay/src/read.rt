// The file of cases: rows of bytes, each after its length in two bytes, high byte first. A row that stands in the file already is named by its place. What
// lies past the end is read as 0 and as empty.
ghost use Rattle.std.specs.Prelude.{◌≤◌, length};

// The rows of a case: its numbers, its name, the file, two more inputs, and what is expected of the four buffers. Past them stands the next
// case.
pub const NEXT: usize = 9;

pub const PLACES: usize = NEXT + 1;

// What a row has for its length that is named by its place, the four bytes behind it.
const NAMED: u32 = 65535;

const NAMED_LENGTH: usize = 4;

pub fn number(bytes: &[u8], at: usize) -> u32 {
    if at < bytes.len() {
        if 1 < bytes.len() - at {
            return ((bytes[at] as u32) << 8) | (bytes[at + 1] as u32);
        }
    }
    0
}

// A number of four bytes.
pub fn wide(bytes: &[u8], at: usize) -> u32 {
    if at < bytes.len() {
        return (number(bytes, at) << 16) | number(bytes, at + 2);
    }
    0
}

// How many bytes a row takes, with those of its length.
fn extent(bytes: &[u8], at: usize) -> usize {
    let length = number(bytes, at);
    if length == NAMED {
        return NAMED_LENGTH + 2;
    }
    length as usize + 2
}

// The place past a row.
pub fn past(bytes: &[u8], at: usize) -> usize
    ensures { result ≤ length bytes.now }
{
    let end = bytes.len();
    let wide = extent(bytes, at);
    if at < end {
        if wide < end - at {
            return at + wide;
        }
    }
    end
}

// The bytes that stand at a place as a row.
fn stored(bytes: &[u8], at: usize) -> &[u8] {
    let end = past(bytes, at);
    if at < end {
        if 2 <= end - at {
            let from = at + 2;
            return &bytes[from..end];
        }
    }
    &bytes[..0]
}

pub fn row(bytes: &[u8], at: usize) -> &[u8] {
    if at < bytes.len() {
        if number(bytes, at) == NAMED {
            return stored(bytes, wide(bytes, at + 2) as usize);
        }
    }
    stored(bytes, at)
}

// Where the rows of a case stand, and the next case.
pub fn places(bytes: &[u8], at: usize) -> [usize; PLACES] {
    let mut all = [at; PLACES];
    for i in 0..NEXT {
        all[i + 1] = past(bytes, all[i]);
    }
    all
}
