// Whether a file names unread facts, by a look at its second item. Internal.
ghost use Rattle.std.specs.Prelude.{◌≡◌};
ghost use Rattle.cursors.specs.Cursor.{items_at};
ghost use Rattle.reader.specs.Begins.{behind_first, first_unread};

use cursors::cursor::{Cursor, Read, Row};
use items::item::Item;
use items::lengths::ITEM_WIDTH;

// Does an unread fact stand where the first item ends? That item is as long as one that names a fact.
pub fn begins_unread(file: &[u8]) -> bool
    ensures { result ≡ first_unread (items_at file.now behind_first) }
{
    let behind = Cursor {
        at: ITEM_WIDTH,
        row: Row::Body,
    };
    matches!(behind.next_in_body(file), Read::Found(Item::Unread(_), _))
}
