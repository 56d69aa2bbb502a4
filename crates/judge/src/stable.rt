// The test of stability: the least set closed under the reduct has the facts of the set. Internal.
ghost use Rattle.std.specs.Prelude.{◌≤◌, ◌≡◌, length};
ghost use Rattle.std.specs.Bool.{beq};
ghost use Rattle.theory.specs.Rule.{all, up_to};
ghost use Rattle.theory.specs.Check.{is_stable};
ghost use Rattle.items.specs.Item.{has};
ghost use Rattle.tables.specs.Held.{held};
ghost use Rattle.index.specs.Index.{in_force_but};

use index::cells::{INDEX_WORDS, LITERALS};
use index::fill::index_rules;
use items::item::{FactId, MAX_RULES};
use propagation::hold::hold_absent;
use propagation::none::hold_none;
use questions::fact_set::in_set;
use tables::layout::Tables;

// Do two sets have the same facts below a number?
fn same_facts(a: &[u8], b: &[u8], facts: u16) -> bool
    ensures { result ≡ all (λ f. beq (has a.now f) (has b.now f)) (up_to facts) }
{
    for f in 0..facts {
        if in_set(a, FactId(f)) != in_set(b, FactId(f)) {
            return false;
        }
    }
    true
}

// Is the set stable for the rules that are not listed? What is derived from the facts held out that are not in the set is the least set of its
// reduct.
pub fn is_stable(tables: &Tables, listed: &[u8; MAX_RULES], set: &[u8]) -> bool
    requires { (held tables.now).facts ≤ length set.now }
    ensures { result ≡ is_stable (held tables.now) (in_force_but (held tables.now) listed.now) (has set.now) }
{
    let mut index = [0u64; INDEX_WORDS];
    let mut missing = [0u16; MAX_RULES];
    index_rules(tables, listed, &mut index, &mut missing);
    let mut marks = [0u8; LITERALS];
    hold_none(tables, &index, &mut marks, &mut missing);
    hold_absent(tables, &index, set, &mut marks, &mut missing);
    let facts = tables.facts() as u16;
    same_facts(&marks, set, facts)
}
