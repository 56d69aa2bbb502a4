// Whether an order, a list of rules or a proof row is of whole items. Internal.
ghost use Rattle.std.specs.Prelude.{◌≡◌};
ghost use Rattle.cursors.specs.Cursor.{items_at, next_at, start_of};
ghost use Rattle.questions.specs.Questions.{whole};
ghost use Rattle.questions.specs.Parts.{Ends};

use cursors::cursor::{Cursor, Read, Row};

// The read in a row that its caller knows: a loop over one row then tests the row once, ahead of its reads.
fn next_in(row: Row, cursor: Cursor, bytes: &[u8]) -> Read
    requires { cursor.row ≡ row }
    ensures { result ≡ next_at bytes.now cursor }
{
    match row {
        Row::Order => cursor.next_name(bytes),
        Row::Steps => cursor.next_step(bytes),
        _ => cursor.next(bytes),
    }
}

// Whole items of the row throughout?
pub fn whole_items(row: Row, bytes: &[u8]) -> bool
    requires { Ends row }
    ensures { result ≡ whole (items_at bytes.now (start_of row)) }
{
    let mut cursor = Cursor::start(row);
    loop {
        match next_in(row, cursor, bytes) {
            Read::Found(_, next) => cursor = next,
            Read::Refused(_, _) => return false,
            Read::Ended(_) => return true,
        }
    }
}
