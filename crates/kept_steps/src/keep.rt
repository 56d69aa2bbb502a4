// The steps of a run that are kept for a fact. Internal.
ghost use Rattle.std.specs.Prelude.{ℕ, ◌≤◌, ◌<◌, ◌≡◌, true, [], ◌∷◌, map, length, get_or, take};
ghost use Rattle.theory.specs.Rule.{count as count_of, rule as rule_of};
ghost use Rattle.theory.specs.Stable.{facts_of};
ghost use Rattle.theory.specs.Keeping.{Traced, select, grounds_of};
ghost use Rattle.items.specs.Item.{narrow, max_facts, has};
ghost use Rattle.tables.specs.Held.{held};
ghost use Rattle.kept_steps.specs.Keep.{steps_by, place_of, Placed, MayKeep, Keeps};

use items::item::{FactId, MAX_FACTS, RuleId};
use tables::layout::{Tables, wide};

// The mark of a step that is kept.
// A number and no enum: the row is read as a set by `has`, in the form of a set of facts, 1 in and 0 out.
const KEPT: u8 = 1;

// For each fact of a row of steps, the place of its step.
fn place_steps(tables: &Tables, row: &[u16], places: &mut [u16; MAX_FACTS])
    requires row_len_bound { (length row.now ≤ max_facts narrow) × (length places.old ≡ max_facts narrow) }
    requires traced { Traced (held tables.now) (steps_by (held tables.now) row.now) }
    ensures { Placed (steps_by (held tables.now) row.now) places.new }
{
    for (k, &rule) in row.iter().enumerate() {
        let fact = tables.conclusion(RuleId(rule));
        places[usize::from(fact.0)] = k as u16;
    }
}

// Is the step at a place kept?
fn is_kept(kept: &[u8; MAX_FACTS], k: usize) -> bool
    requires { k < length kept.now }
    ensures { result ≡ has kept.now k }
{
    kept[k] == KEPT
}

// Keeps the step at a place, and with it the steps of its rule's premises, and so on back. The premises of a rule are facts of earlier steps.
#[cycle(keep_premises_keep_step)]
fn keep_step(
    tables: &Tables,
    row: &[u16],
    places: &[u16; MAX_FACTS],
    k: usize,
    kept: &mut [u8; MAX_FACTS],
)
    requires may_keep { MayKeep (held tables.now) row.now places.now kept.old k }
    ensures keeps { Keeps (held tables.now) (steps_by (held tables.now) row.now) (has kept.old) (k ∷ []) (has kept.new) }
    ensures kept_len { length kept.new ≡ max_facts narrow }
{
    kept[k] = KEPT;
    keep_premises(tables, row, places, k, kept);
}

// Keeps the step of each premise of the rule of the step at a place, where it is not kept yet.
#[cycle(keep_premises_keep_step)]
fn keep_premises(
    tables: &Tables,
    row: &[u16],
    places: &[u16; MAX_FACTS],
    k: usize,
    kept: &mut [u8; MAX_FACTS],
)
    requires may_keep { MayKeep (held tables.now) row.now places.now kept.old k }
    ensures keeps { Keeps (held tables.now) (steps_by (held tables.now) row.now) (has kept.old) (map (place_of places.now) (rule_of (held tables.now) (get_or row.now k 0)).premises) (has kept.new) }
    ensures kept_len { length kept.new ≡ max_facts narrow }
{
    for &fact in tables.premises(RuleId(row[k])) {
        let earlier = places[wide(fact)] as usize;
        let known = is_kept(kept, earlier);
        if !known {
            keep_step(tables, row, places, earlier, kept);
        }
    }
}

// Writes the rules of the kept steps of a row, in their order, to the front of another, and answers how many they are.
// The other row has a fixed length, since there is no heap: the answer tells how much of it counts.
fn retain(row: &[u16], kept: &[u8; MAX_FACTS], out: &mut [u16; MAX_FACTS]) -> usize
    requires { (length row.now ≤ max_facts narrow) × (length kept.now ≡ max_facts narrow) × (length out.old ≡ max_facts narrow) }
    ensures out_after { take result out.new ≡ select (has kept.now) row.now }
    ensures upper_bound { (result ≤ length row.now) × (length out.new ≡ max_facts narrow) }
{
    let mut n: usize = 0;
    for (k, &rule) in row.iter().enumerate() {
        if kept[k] == KEPT {
            out[n] = rule;
            n += 1;
        }
    }
    n
}

// Writes the rules of the steps that are kept for a fact of the row, in their order, to the front of another row, and answers how many they are.
pub fn keep_grounds(tables: &Tables, row: &[u16], fact: FactId, out: &mut [u16; MAX_FACTS]) -> usize
    requires row_len_bound { (length row.now ≤ max_facts narrow) × (length out.old ≡ max_facts narrow) }
    requires traced { Traced (held tables.now) (steps_by (held tables.now) row.now) }
    requires fact_value { facts_of (steps_by (held tables.now) row.now) fact.0 ≡ true }
    ensures out_after { steps_by (held tables.now) (take result out.new) ≡ grounds_of (held tables.now) fact.0 (steps_by (held tables.now) row.now) }
    ensures upper_bound { (result ≤ length row.now) × (length out.new ≡ max_facts narrow) }
    ensures by_index { (k : ℕ) → k < result → get_or out.new k 0 < count_of (held tables.now) }
{
    let mut places = [0u16; MAX_FACTS];
    let mut kept = [0u8; MAX_FACTS];
    place_steps(tables, row, &mut places);
    let number = fact.0 as usize;
    let own = places[number] as usize;
    keep_step(tables, row, &places, own, &mut kept);
    retain(row, &kept, out)
}
