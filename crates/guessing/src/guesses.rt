// The guesses over a row of facts. Internal.
ghost use Rattle.std.proofs.Props.{props};
ghost use Rattle.tables.specs.Held.{held};
ghost use Rattle.index.specs.Index.{Indexed};
ghost use Rattle.guessing.specs.Guessing.{Base};
ghost use Rattle.guessing.specs.Props.{NoRepeat-prop};

use index::cells::{INDEX_WORDS, LITERALS};
use items::item::MAX_RULES;
use tables::layout::Tables;

// A program with its index, the row of facts that are left to guess, and the base: the marks and what each rule misses, with what is false beside the row held out.
#[derive(Clone, Copy)]
pub struct Guessing<'a> {
    pub tables: &'a Tables,
    pub index: &'a [u64; INDEX_WORDS],
    pub row: &'a [u16],
    pub base: &'a [u8; LITERALS],
    pub missing: &'a [u16; MAX_RULES],
    pub ghost indexed: { Indexed (held tables.now) index.now } by { Prim.hlevel props },
    pub ghost at_base: { Base (held tables.now) index.now row.now base.now missing.now } by { Prim.hlevel (props, NoRepeat-prop) },
}
