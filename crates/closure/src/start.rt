// A derivation from any set, with an index of its own. Internal.
ghost use Rattle.std.specs.Prelude.{◌≡◌, length};
ghost use Rattle.items.specs.Item.{narrow, max_facts, max_rules};
ghost use Rattle.tables.specs.Held.{held};
ghost use Rattle.premises.specs.Plain.{mask_in, PlainIndexed, Zeroed, RowsAre, Masks, OnlyPlain};
ghost use Rattle.closure.specs.Room.{Room};
ghost use Rattle.closure.specs.Deriving.{Derived};

use crate::least::derive;
use bits::row::ROW_WORDS;
use items::item::{MAX_FACTS, MAX_RULES};
use premises::plain::{PLAIN_WORDS, index_plain};
use premises::wake::enter_set;
use tables::layout::Tables;

// Fills the index, which is empty before, and derives from the set of the marks by the plain rules of a mask; what each plain rule lacks is counted on
// from the empty set.
pub fn start(
    tables: &Tables,
    mask: &[u8; MAX_RULES],
    index: &mut [u64; PLAIN_WORDS],
    marks: &mut [u8; MAX_FACTS],
    missing: &mut [u16; MAX_RULES],
    fired: &mut [u16; MAX_FACTS],
) -> Option<usize>
    requires only_plain { OnlyPlain (held tables.now) mask.now × Zeroed index.old }
    requires room { Room (held tables.now) marks.old 0 × (length missing.old ≡ max_rules) × (length fired.old ≡ max_facts narrow) }
    ensures rows_are { RowsAre (held tables.now) index.new }
    ensures plain_indexed { PlainIndexed (held tables.now) index.new }
    ensures masks { Masks mask.now index.new }
    ensures derived { Derived (held tables.now) (mask_in index.new) marks.old fired.old 0 result marks.new missing.new fired.new }
{
    let mut ready = [0u64; ROW_WORDS];
    index_plain(tables, mask, index, missing, &mut ready);
    enter_set(tables, index, marks, missing, &mut ready);
    derive(tables, index, marks, missing, &mut ready, fired, 0)
}
