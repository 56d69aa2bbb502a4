// The plain rules by premise, with the rules in force. Internal.
ghost use Rattle.std.specs.Prelude.{◌*◌, ◌<◌, ◌≡◌, length};
ghost use Rattle.theory.specs.Rule.{nothing};
ghost use Rattle.items.specs.Item.{max_rules, has};
ghost use Rattle.bits.specs.Flags.{word_bits, row_words, word as word_of, Flags};
ghost use Rattle.bits.specs.Matrix.{matrix_words, SameFrom};
ghost use Rattle.tables.specs.Held.{held};
ghost use Rattle.premises.specs.Premises.{plain_ones, Asked, Counted, ripe};
ghost use Rattle.premises.specs.Filling.{Blank};
ghost use Rattle.premises.specs.Plain.{PlainIndexed, Zeroed, MaskPut, RowsAre, Masks, OnlyPlain};

use crate::fill::index_next;
use bits::matrix::MATRIX_WORDS;
use bits::row::{ROW_WORDS, WORD_BITS};
use bits::word::with_bit;
use items::item::{MAX_RULES, RuleId};
use tables::layout::Tables;

// A row for each fact, and one for the rules in force.
pub const PLAIN_WORDS: usize = MATRIX_WORDS + ROW_WORDS;

// The rules of a mask whose bits stand in one word. The mask is a row of bytes, since `has` reads it as a set, 1 in and 0 out.
fn mask_word(mask: &[u8; MAX_RULES], at: usize) -> u64
    requires { at < row_words }
    ensures { result ≡ word_of (has mask.now) (at * word_bits) word_bits }
{
    let from = at * WORD_BITS;
    let mut word: u64 = 0;
    for (bit, &mark) in mask[from..from + WORD_BITS].iter().enumerate() {
        if mark == 1 {
            word = with_bit(word, bit);
        }
    }
    word
}

// Puts the rules of a mask behind the rows, whose words are all 0.
fn put_mask(tables: &Tables, mask: &[u8; MAX_RULES], index: &mut [u64; PLAIN_WORDS])
    requires { OnlyPlain (held tables.now) mask.now × Zeroed index.old }
    ensures { MaskPut mask.now index.new }
{
    let words = tables.rules().div_ceil(WORD_BITS);
    for at in 0..words {
        index[MATRIX_WORDS + at] = mask_word(mask, at);
    }
}

// Fills the empty rows with the plain rules, how many distinct premises each has, and which have none.
fn fill_plain(
    tables: &Tables,
    index: &mut [u64; PLAIN_WORDS],
    missing: &mut [u16; MAX_RULES],
    ready: &mut [u64; ROW_WORDS],
)
    requires { Blank index.old missing.old ready.old }
    ensures rows_are { RowsAre (held tables.now) index.new }
    ensures asked { Asked (held tables.now) (plain_ones (held tables.now)) index.new }
    ensures counted { Counted (held tables.now) (plain_ones (held tables.now)) nothing missing.new }
    ensures flags { Flags (ripe (held tables.now) (plain_ones (held tables.now)) nothing) ready.new }
    ensures same_from { SameFrom matrix_words index.old index.new }
{
    let rules = tables.rules();
    for i in 0..rules {
        let rule = RuleId(i as u16);
        let exception = tables.is_exception(rule);
        if !exception {
            index_next(tables, rule, i, index, missing, ready);
        }
    }
}

// Fills the index, whose words are all 0: for each fact the plain rules with that premise, and the rules of a mask in force; for each plain rule the
// number of its distinct premises, and which have none.
pub fn index_plain(
    tables: &Tables,
    mask: &[u8; MAX_RULES],
    index: &mut [u64; PLAIN_WORDS],
    missing: &mut [u16; MAX_RULES],
    ready: &mut [u64; ROW_WORDS],
)
    requires only_plain { OnlyPlain (held tables.now) mask.now }
    requires zeroed { Zeroed index.old × (length missing.old ≡ max_rules) × Flags nothing ready.old }
    ensures rows_are { RowsAre (held tables.now) index.new }
    ensures plain_indexed { PlainIndexed (held tables.now) index.new }
    ensures masks { Masks mask.now index.new }
    ensures counted { Counted (held tables.now) (plain_ones (held tables.now)) nothing missing.new }
    ensures flags { Flags (ripe (held tables.now) (plain_ones (held tables.now)) nothing) ready.new }
{
    put_mask(tables, mask, index);
    fill_plain(tables, index, missing, ready);
}
