// One pass over a file: asks questions 1 to 10, 51 and 56, and fills the tables that everything above works on. Internal: `tables` is scratch of the caller,
// empty before. It holds the program of the file where the answer is yes, and one without facts and rules where it is no, since the counts are stored last.
ghost use Rattle.std.specs.Prelude.{◌≡◌, ◌<◌, ◌≤◌, length};
ghost use Rattle.cursors.specs.declared.cursor.Row.TheVariants.{Body};
ghost use Rattle.cursors.specs.declared.cursor.Cursor.{Cursor};
ghost use Rattle.items.specs.Item.{narrow, max_facts, max_bytes};
ghost use Rattle.tables.specs.Layout.{WellFormed};
ghost use Rattle.reader.specs.Asked.{asked_of, counts_of, file_asked};
ghost use Rattle.reader.specs.Scanned.{Scanned};
ghost use Rattle.reader.specs.Scanning.{Scanning, Answered, unopened, UnreadTaken};
ghost use Rattle.reader.specs.BodyScanned.{program_from, body_no, BodyScanned, Cleared, Unmarked};

use crate::answer::FileCounts;
use crate::step::{Progress, scan_item};
use cursors::cursor::{Cursor, Read, Row};
use items::item::{Item, MAX_BYTES, MAX_FACTS};
use items::refusal::Refusal;
use marking::marks::count_marked;
use tables::layout::{TABLE_CELLS, Tables};

// Takes the unread facts before the first rule, and answers where they end. They have a loop of their own: beside the items of rules they made that loop a
// tenth slower, in the mean over files without any.
fn scan_unread(
    file: &[u8],
    from: Cursor,
    facts: u16,
    cells: &mut [u16; TABLE_CELLS],
    marks: &mut [u8; MAX_FACTS],
) -> Cursor
    requires { (from.row ≡ Body) × (facts < max_facts narrow) × Cleared cells.old × Unmarked marks.old }
    ensures { UnreadTaken facts file.now from cells.new marks.new result }
{
    let mut cursor = from;
    while let Read::Found(Item::Unread(f), next) = cursor.next_in_body(file) {
        if facts <= f.0 {
            return cursor;
        }
        stores::store_unread(cells, marks, f.0);
        cursor = next;
    }
    cursor
}

// Questions 3 to 10, 51 and 56, of the items behind those unread facts.
fn scan_rules(
    file: &[u8],
    from: Cursor,
    facts: u16,
    cells: &mut [u16; TABLE_CELLS],
    marks: &mut [u8; MAX_FACTS],
) -> Result<FileCounts, Refusal>
    requires { (length file.now ≤ max_bytes) × (facts < max_facts narrow) × ((c₀ : Cursor) × UnreadTaken facts file.now c₀ cells.old marks.old from) }
    ensures { (c₀ : Cursor) → Scanning facts file.now c₀ cells.old marks.old from unopened → Answered facts file.now c₀ cells.new result }
{
    let mut cursor = from;
    let mut progress = Progress::default();
    loop {
        match cursor.next_in_body(file) {
            Read::Refused(r, _) => return Err(r),
            Read::Found(item, next) => {
                let end = file.len();
                let Some(after) = scan_item(item, next, end, facts, progress, cells, marks)? else {
                    return Ok(FileCounts {
                        facts,
                        rules: progress.rules as u16,
                        exceptions: progress.exceptions,
                        constrained: count_marked(marks, facts as usize),
                    });
                };
                progress = after;
                cursor = next;
            }
            Read::Ended(_) => return Err(Refusal::FileCutOff),
        }
    }
}

// Questions 3 to 10, 51 and 56, of the items after the first.
fn scan_body(
    file: &[u8],
    from: Cursor,
    facts: u16,
    cells: &mut [u16; TABLE_CELLS],
    marks: &mut [u8; MAX_FACTS],
) -> Result<FileCounts, Refusal>
    requires { (from.row ≡ Body) × (length file.now ≤ max_bytes) × (facts < max_facts narrow) × Cleared cells.old × Unmarked marks.old }
    ensures value { result ≡ asked_of (body_no facts file.now from) (counts_of (program_from facts file.now from)) }
    ensures body_scanned { BodyScanned facts file.now from cells.new }
    ensures well_formed { WellFormed cells.new }
{
    let start = scan_unread(file, from, facts, cells, marks);
    scan_rules(file, start, facts, cells, marks)
}

// Questions 1 to 10, 51 and 56.
pub fn scan(file: &[u8], tables: &mut Tables) -> Result<FileCounts, Refusal>
    requires { Cleared tables.old.cells }
    ensures value { result ≡ file_asked file.now }
    ensures scanned { Scanned file.now tables.new.cells }
{
    let too_long = MAX_BYTES < file.len();
    if too_long {
        return Err(Refusal::FileTooLong);
    }
    let mut marks = [0u8; MAX_FACTS];
    match Cursor::start(Row::Opening).next(file) {
        Read::Found(Item::Facts(n), next) => scan_body(
            file,
            next,
            n,
            &mut tables.cells,
            &mut marks,
        ),
        Read::Refused(r, _) => Err(r),
        _ => Err(Refusal::NoFactCount),
    }
}
