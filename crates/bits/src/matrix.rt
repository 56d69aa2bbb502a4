// A row of bits for each key, a fact or a literal. Internal.
ghost use Rattle.std.specs.Prelude.{ℕ, ◌+◌, ◌*◌, ◌<◌, ◌≤◌, ◌≡◌, Bool, not, ◌||◌, length};
ghost use Rattle.items.specs.Item.{max_rules};
ghost use Rattle.bits.specs.Flags.{row_words, Flags};
ghost use Rattle.bits.specs.Matrix.{bit_in, Matrix, adjoin_in, RowCopied, SameFrom};

use crate::row::{ROW_WORDS, WORD_BITS};
use crate::word::with_bit;
use items::item::MAX_FACTS;

// A matrix with a row for each fact.
pub const MATRIX_WORDS: usize = MAX_FACTS * ROW_WORDS;

// Marks a place in the row of a key. Was it new? What stands behind the row stays.
// The bool answers that question itself: nothing else is handed out with it.
pub fn mark_in(matrix: &mut [u64], key: usize, place: usize) -> bool
    requires { (key * row_words + row_words ≤ length matrix.old) × (place < max_rules) }
    ensures by_index { (keys : ℕ) (q : ℕ → ℕ → Bool) → key < keys → Matrix keys q matrix.old → (result ≡ not (q key place)) × Matrix keys (adjoin_in q key place) matrix.new }
    ensures same_from { SameFrom (key * row_words + row_words) matrix.old matrix.new }
{
    let at = key * ROW_WORDS + place / WORD_BITS;
    let before = matrix[at];
    let after = with_bit(before, place % WORD_BITS);
    matrix[at] = after;
    after != before
}

// Is a place marked in the row of a key?
pub fn marked_in(matrix: &[u64], key: usize, place: usize) -> bool
    requires { (key * row_words + row_words ≤ length matrix.now) × (place < max_rules) }
    ensures { result ≡ bit_in matrix.now key place }
{
    let word = matrix[key * ROW_WORDS + place / WORD_BITS];
    with_bit(word, place % WORD_BITS) == word
}

// Copies the row of a key.
fn copy_row(matrix: &[u64], key: usize, row: &mut [u64; ROW_WORDS])
    requires { key * row_words + row_words ≤ length matrix.now }
    ensures { RowCopied matrix.now key row.old row.new }
{
    let from = key * ROW_WORDS;
    row.copy_from_slice(&matrix[from..from + ROW_WORDS]);
}

// The row of a key.
pub fn row_of(matrix: &[u64], key: usize) -> [u64; ROW_WORDS]
    requires { key * row_words + row_words ≤ length matrix.now }
    ensures { (keys : ℕ) (q : ℕ → ℕ → Bool) → key < keys → Matrix keys q matrix.now → Flags (q key) result }
{
    let mut row = [0u64; ROW_WORDS];
    copy_row(matrix, key, &mut row);
    row
}

// Marks in a row all places of the row of a key.
pub fn join_row(matrix: &[u64], key: usize, row: &mut [u64; ROW_WORDS])
    requires { key * row_words + row_words ≤ length matrix.now }
    ensures { (keys : ℕ) (p : ℕ → Bool) (q : ℕ → ℕ → Bool) → key < keys → Matrix keys q matrix.now → Flags p row.old → Flags (λ i. p i || q key i) row.new }
{
    let from = key * ROW_WORDS;
    for (k, word) in row.iter_mut().enumerate() {
        *word |= matrix[from + k];
    }
}
