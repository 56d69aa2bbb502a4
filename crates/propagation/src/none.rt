// Nothing is held out yet. Internal.
ghost use Rattle.std.specs.Prelude.{ℕ, ◌≡◌, List, [], replicate};
ghost use Rattle.tables.specs.Held.{held};
ghost use Rattle.index.specs.Literal.{literals};
ghost use Rattle.index.specs.Cells.{on_in};
ghost use Rattle.index.specs.Index.{Indexed, Sized};
ghost use Rattle.propagation.specs.State.{Settled, HeldToo};

use crate::spread::{conclude, spread};
use index::cells::{INDEX_WORDS, LITERALS};
use items::item::MAX_RULES;
use tables::layout::Tables;

// Derives what follows with no fact held out: the marks are empty before, and every rule in force misses its whole body.
pub fn hold_none(
    tables: &Tables,
    index: &[u64; INDEX_WORDS],
    marks: &mut [u8; LITERALS],
    missing: &mut [u16; MAX_RULES],
)
    requires indexed { Indexed (held tables.now) index.now }
    requires sized { Sized (held tables.now) index.now missing.old × (◌≡◌ {A = List ℕ} marks.old (replicate literals 0)) }
    ensures settled { Settled (held tables.now) (on_in index.now) marks.new missing.new }
    ensures held_too { HeldToo marks.old [] marks.new }
{
    let mut stack = [0u16; LITERALS];
    let mut top: usize = 0;
    for i in 0..tables.rules() {
        if missing[i] == 0 {
            top = conclude(tables, i, marks, &mut stack, top);
        }
    }
    spread(tables, index, marks, missing, &mut stack, top);
}
