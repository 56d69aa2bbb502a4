// The index is filled, rule by rule. Internal.
ghost use Rattle.std.specs.Prelude.{ℕ, ◌+◌, ◌<◌, ◌≤◌, ◌≡◌, Bool, false, not, List, ◌++◌, map};
ghost use Rattle.theory.specs.Rule.{count, rule as rule_of};
ghost use Rattle.bits.specs.Matrix.{SameFrom};
ghost use Rattle.tables.specs.Layout.{max_own};
ghost use Rattle.tables.specs.Held.{held};
ghost use Rattle.premises.specs.Filling.{Entered};
ghost use Rattle.index.specs.Literal.{literals, outside};
ghost use Rattle.index.specs.Cells.{marks_from};
ghost use Rattle.index.specs.Index.{Indexed, in_force_but, LeftOut, Sized, Blank};

use crate::cells::{INDEX_WORDS, MARKS};
use bits::matrix::mark_in;
use items::item::{MAX_FACTS, MAX_RULES, RuleId};
use premises::fill::index_rule;
use tables::layout::{Tables, wide};

// Marks a rule in the rows of its constraints, as facts out. Answers how many of them had no mark of it.
fn index_constraints(tables: &Tables, rule: RuleId, index: &mut [u64; INDEX_WORDS]) -> usize
    requires { rule.0 < count (held tables.now) }
    ensures upper_bound { result ≤ max_own }
    ensures by_index { (q : ℕ → ℕ → Bool) (xs : List ℕ) (before : ℕ) → ((l : ℕ) → q l rule.0 ≡ false) → Entered literals literals q rule.0 xs index.old before → Entered literals literals q rule.0 (xs ++ map outside (rule_of (held tables.now) rule.0).constraints) index.new (before + result) }
    ensures same_from { SameFrom marks_from index.old index.new }
{
    let place = rule.0 as usize;
    let mut distinct: usize = 0;
    for &constraint in tables.constraints(rule) {
        let literal = MAX_FACTS + wide(constraint);
        if mark_in(index, literal, place) {
            distinct += 1;
        }
    }
    distinct
}

// Is a rule off, or not in force? Which are off stands in a row of bytes, since `has` reads it as a set, 1 in and 0 out.
fn is_left_out(tables: &Tables, off: &[u8; MAX_RULES], rule: RuleId) -> bool
    requires { rule.0 < count (held tables.now) }
    ensures { result ≡ not (in_force_but (held tables.now) off.now rule.0) }
{
    off[rule.0 as usize] == 1 || tables.is_withheld(rule)
}

// Fills the index, which is empty before, with the rules in force less those that are off, and how many literals each of them asks.
pub fn index_rules(
    tables: &Tables,
    off: &[u8; MAX_RULES],
    index: &mut [u64; INDEX_WORDS],
    missing: &mut [u16; MAX_RULES],
)
    requires { Blank index.old missing.old }
    ensures indexed { Indexed (held tables.now) index.new }
    ensures left_out { LeftOut (held tables.now) off.now index.new }
    ensures sized { Sized (held tables.now) index.new missing.new }
{
    for i in 0..tables.rules() {
        let rule = RuleId(i as u16);
        if is_left_out(tables, off, rule) {
            missing[i] = 1;
            continue;
        }
        let inside = index_rule(tables, rule, i, index);
        let outside = index_constraints(tables, rule, index);
        index[MARKS + i] = 1;
        missing[i] = (inside + outside) as u16;
    }
}
