// Facts enter the set, and rules wake. Internal.
ghost use Rattle.std.specs.Prelude.{ℕ, ◌+◌, ◌-◌, ◌*◌, ◌<◌, ◌≤◌, ◌≡◌, Bool, length};
ghost use Rattle.theory.specs.Rule.{nothing, FactSet};
ghost use Rattle.theory.specs.Walk.{after};
ghost use Rattle.theory.specs.Derive.{conclude, Fresh};
ghost use Rattle.items.specs.Item.{max_rules, has};
ghost use Rattle.bits.specs.Flags.{word_bits, row_words, word as word_of, Flags};
ghost use Rattle.bits.specs.Matrix.{matrix_words, Matrix};
ghost use Rattle.tables.specs.Held.{held};
ghost use Rattle.premises.specs.Premises.{Places, Asked, Counted, ripe, roused};
ghost use Rattle.premises.specs.Waking.{Lowered, in_word, RulesAlone};

use bits::matrix::MATRIX_WORDS;
use bits::row::{ROW_WORDS, WORD_BITS, mark};
use bits::word::{lowest_bit, without_lowest};
use items::item::{MAX_FACTS, MAX_RULES, RuleId};
use marking::marks::IN;
use tables::layout::Tables;

// A count less one. No count that is lowered is 0, but the check asks nothing of the counts this way.
fn one_less(count: u16) -> u16
    ensures { result ≡ count - 1 }
{
    count.saturating_sub(1)
}

// Takes each rule out of a word of a row and lowers its count by one; those that reach 0 wake.
fn lower(word: u64, at: usize, missing: &mut [u16; MAX_RULES], awake: &mut [u64; ROW_WORDS])
    requires { at < row_words }
    ensures { (p w : ℕ → Bool) → word ≡ word_of p (at * word_bits) word_bits → Flags w awake.old → length missing.old ≡ max_rules → Lowered (in_word at p) w missing.old missing.new awake.new }
{
    let mut left = word;
    while left != 0 {
        let place = at * WORD_BITS + lowest_bit(left);
        left = without_lowest(left);
        let lacked = one_less(missing[place]);
        missing[place] = lacked;
        let ripe = lacked == 0;
        if ripe {
            mark(awake, place);
        }
    }
}

// A fact enters: each rule that asks it lacks one premise less.
pub fn enter(
    asks: &[u64],
    fact: usize,
    missing: &mut [u16; MAX_RULES],
    awake: &mut [u64; ROW_WORDS],
)
    requires { fact * row_words + row_words ≤ length asks.now }
    ensures { (keys : ℕ) (q : ℕ → ℕ → Bool) (w : ℕ → Bool) → fact < keys → Matrix keys q asks.now → Flags w awake.old → length missing.old ≡ max_rules → Lowered (q fact) w missing.old missing.new awake.new }
{
    let from = fact * ROW_WORDS;
    for (at, &word) in asks[from..from + ROW_WORDS].iter().enumerate() {
        lower(word, at, missing, awake);
    }
}

// Enters the conclusions of the rules of a list.
pub fn wake(
    tables: &Tables,
    asks: &[u64; MATRIX_WORDS],
    fired: &[u16],
    missing: &mut [u16; MAX_RULES],
    awake: &mut [u64; ROW_WORDS],
)
    requires { RulesAlone (held tables.now) fired.now }
    ensures { (R : Places) (S : FactSet) (p : ℕ → Bool) → Asked (held tables.now) R asks.now → Counted (held tables.now) R S missing.old → Flags p awake.old → Fresh (held tables.now) S fired.now → Counted (held tables.now) R (after (conclude (held tables.now)) S fired.now) missing.new × Flags (roused (held tables.now) R S (after (conclude (held tables.now)) S fired.now) p) awake.new }
{
    for &rule in fired {
        let fact = tables.conclusion(RuleId(rule));
        let number = usize::from(fact.0);
        enter(asks, number, missing, awake);
    }
}

// Enters the facts of a set.
pub fn enter_set(
    tables: &Tables,
    asks: &[u64],
    set: &[u8; MAX_FACTS],
    missing: &mut [u16; MAX_RULES],
    awake: &mut [u64; ROW_WORDS],
)
    requires { matrix_words ≤ length asks.now }
    ensures { (R : Places) → Asked (held tables.now) R asks.now → Counted (held tables.now) R nothing missing.old → Flags (ripe (held tables.now) R nothing) awake.old → Counted (held tables.now) R (has set.now) missing.new × Flags (ripe (held tables.now) R (has set.now)) awake.new }
{
    let facts = tables.facts();
    let marks = &set[..facts];
    for (f, &mark) in marks.iter().enumerate() {
        let inside = mark == IN;
        if inside {
            enter(asks, f, missing, awake);
        }
    }
}
