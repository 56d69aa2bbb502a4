// Rules are indexed by their premises. Internal.
ghost use Rattle.std.specs.Prelude.{ℕ, ◌+◌, ◌<◌, ◌≤◌, ◌≡◌, Bool, true, false, length};
ghost use Rattle.theory.specs.Rule.{nothing, count, rule as rule_of};
ghost use Rattle.items.specs.Item.{max_rules};
ghost use Rattle.bits.specs.Flags.{Flags};
ghost use Rattle.bits.specs.Matrix.{matrix_words, Matrix, SameFrom};
ghost use Rattle.tables.specs.Layout.{max_own};
ghost use Rattle.tables.specs.Held.{held};
ghost use Rattle.premises.specs.Premises.{Places, in_row, Asked, Counted, ripe};
ghost use Rattle.premises.specs.Filling.{Listed, Blank, Entered, Indexing};

use bits::matrix::{MATRIX_WORDS, mark_in};
use bits::row::{ROW_WORDS, mark};
use items::item::{MAX_FACTS, MAX_RULES, RuleId};
use tables::layout::{Tables, wide};

// Marks the premises of a rule at its place. Answers how many distinct premises it has.
pub fn index_rule(tables: &Tables, rule: RuleId, place: usize, asks: &mut [u64]) -> usize
    requires { (rule.0 < count (held tables.now)) × (place < max_rules) × (matrix_words ≤ length asks.old) }
    ensures upper_bound { result ≤ max_own }
    ensures by_index { (keys bound : ℕ) (q : ℕ → ℕ → Bool) → (held tables.now).facts ≤ bound → bound ≤ keys → Matrix keys q asks.old → ((f : ℕ) → q f place ≡ false) → Entered keys bound q place (rule_of (held tables.now) rule.0).premises asks.new result }
    ensures same_from { SameFrom matrix_words asks.old asks.new }
{
    let mut distinct: usize = 0;
    let mut last = MAX_FACTS;
    for &premise in tables.premises(rule) {
        let fact = wide(premise);
        // Marking the premise before once more would wait for its mark to be stored.
        if fact == last {
            continue;
        }
        last = fact;
        if mark_in(asks, fact, place) {
            distinct += 1;
        }
    }
    distinct
}

// Indexes the rule at the next place: how many distinct premises it has, and that it is awake where it has none.
pub fn index_next(
    tables: &Tables,
    rule: RuleId,
    place: usize,
    asks: &mut [u64],
    missing: &mut [u16; MAX_RULES],
    awake: &mut [u64; ROW_WORDS],
)
    requires { (rule.0 < count (held tables.now)) × (place < max_rules) × (matrix_words ≤ length asks.old) }
    ensures indexing { (R : Places) → R.taken place ≡ true → R.holder place ≡ rule.0 → Indexing (held tables.now) R place asks.old missing.old awake.old → Indexing (held tables.now) R (place + 1) asks.new missing.new awake.new }
    ensures same_from { SameFrom matrix_words asks.old asks.new }
{
    let distinct = index_rule(tables, rule, place, asks);
    missing[place] = distinct as u16;
    if distinct == 0 {
        mark(awake, place);
    }
}

// Fills the empty index with the rules of a row, how many distinct premises each has, and which have none.
pub fn index_row(
    tables: &Tables,
    row: &[u16],
    asks: &mut [u64; MATRIX_WORDS],
    missing: &mut [u16; MAX_RULES],
    awake: &mut [u64; ROW_WORDS],
)
    requires { Listed (held tables.now) row.now × Blank asks.old missing.old awake.old }
    ensures asked { Asked (held tables.now) (in_row row.now) asks.new }
    ensures counted { Counted (held tables.now) (in_row row.now) nothing missing.new }
    ensures flags { Flags (ripe (held tables.now) (in_row row.now) nothing) awake.new }
{
    for (place, &number) in row.iter().enumerate() {
        index_next(tables, RuleId(number), place, asks, missing, awake);
    }
}
