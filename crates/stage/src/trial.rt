// The trial of a rule. Internal.
ghost use Rattle.std.specs.Prelude.{◌<◌, ◌≡◌, true, false, length};
ghost use Rattle.theory.specs.Rule.{all, clear, count as count_of, exception, in_force, plain_rules, rule as rule_of};
ghost use Rattle.theory.specs.Run.{Stand};
ghost use Rattle.items.specs.Item.{narrow, max_facts, has};
ghost use Rattle.tables.specs.Held.{held};
ghost use Rattle.premises.specs.Plain.{mask_in, PlainIndexed};
ghost use Rattle.closure.specs.Deriving.{AtRest};
ghost use Rattle.closure.specs.Room.{Room};
ghost use Rattle.stage.specs.Memory.{Holds, Tried};

use bits::row::ROW_WORDS;
use closure::least::derive;
use items::item::{MAX_FACTS, MAX_RULES, RuleId};
use marking::marks::{BARRED, IN, mark_own};
use premises::plain::PLAIN_WORDS;
use premises::wake::enter;
use tables::layout::Tables;

// Tries a rule whose conclusion and constraints are not in D, on a copy of the marks and of the counts: its constraints are barred as R is, its
// conclusion enters, and the set is closed. Where that meets no barred fact the copies are the new D and R and the new counts, and the rules fired
// follow the count of before.
// The rules fired stand in a row of fixed length, since there is no heap: `count` is how many there are, and the place of the next.
pub fn trial(
    tables: &Tables,
    index: &[u64; PLAIN_WORDS],
    rule: RuleId,
    marks: &mut [u8; MAX_FACTS],
    missing: &mut [u16; MAX_RULES],
    fired: &mut [u16; MAX_FACTS],
    count: usize,
) -> Option<usize>
    requires rule_known { rule.0 < count_of (held tables.now) }
    requires plain_indexed { PlainIndexed (held tables.now) index.now × (mask_in index.now ≡ plain_rules (held tables.now) (in_force (held tables.now))) }
    requires room { Room (held tables.now) marks.old count × (length fired.old ≡ max_facts narrow) }
    requires rule_value { (has marks.old (rule_of (held tables.now) rule.0).conclusion ≡ false) × (clear (has marks.old) (rule_of (held tables.now) rule.0).constraints ≡ true) }
    requires at_rest { AtRest (held tables.now) (mask_in index.now) (has marks.old) missing.old }
    ensures { (s : Stand) → Holds (held tables.now) s marks.old fired.old count → all s.derived (rule_of (held tables.now) rule.0).premises ≡ true → exception (held tables.now) rule.0 ≡ true → in_force (held tables.now) rule.0 ≡ true → Tried (held tables.now) s rule.0 fired.old count result marks.new missing.new fired.new }
{
    let mut set = *marks;
    mark_own(tables, rule, BARRED, &mut set);
    let fact = tables.conclusion(rule);
    let f = usize::from(fact.0);
    if set[f] == BARRED {
        return None;
    }
    set[f] = IN;
    fired[count] = rule.0;
    let mut counts = *missing;
    let mut ready = [0u64; ROW_WORDS];
    enter(index, f, &mut counts, &mut ready);
    let steps = derive(
        tables,
        index,
        &mut set,
        &mut counts,
        &mut ready,
        fired,
        count + 1,
    )?;
    *marks = set;
    *missing = counts;
    Some(steps)
}
