// Marks that are set by what the rules say.
ghost use Rattle.std.specs.Prelude.{◌≤◌, ◌<◌, ◌≡◌, length};
ghost use Rattle.theory.specs.Rule.{mem, how_many, up_to, count, in_force, constraint_fact, plain_rules, rule as rule_of};
ghost use Rattle.items.specs.Item.{narrow, max_facts, max_rules, has};
ghost use Rattle.tables.specs.Held.{held};
ghost use Rattle.marking.specs.Marks.{paint_as, paint};

use items::item::{MAX_FACTS, MAX_RULES, RuleId};
use tables::layout::{Tables, wide};

// The marks of a fact in a set, and of a fact that is not to enter it.
// Numbers and no enum: a row of them is read as a set of facts by the functions that read the sets of callers, 1 in and 0 out.
pub const IN: u8 = 1;

pub const BARRED: u8 = 2;

// Gives the constraints of a rule a mark.
pub fn mark_own(tables: &Tables, rule: RuleId, mark: u8, marks: &mut [u8; MAX_FACTS])
    requires rule_known { rule.0 < count (held tables.now) }
    requires marks_len { length marks.old ≡ max_facts narrow }
    ensures { marks.new ≡ paint_as mark (λ k. mem k (rule_of (held tables.now) rule.0).constraints) marks.old }
{
    for &fact in tables.constraints(rule) {
        marks[wide(fact)] = mark;
    }
}

// Marks the constraint facts: the constraints of all rules in force.
pub fn mark_constraint_facts(tables: &Tables, marks: &mut [u8; MAX_FACTS])
    requires { length marks.old ≡ max_facts narrow }
    ensures { marks.new ≡ paint (constraint_fact (held tables.now) (in_force (held tables.now))) marks.old }
{
    for i in 0..tables.rules() {
        let rule = RuleId(i as u16);
        if !tables.is_withheld(rule) {
            mark_own(tables, rule, IN, marks);
        }
    }
}

// Counts the marked facts below a number.
// The row is lent whole, with the number beside it, since `has` reads the whole row as one set of facts.
pub fn count_marked(marks: &[u8; MAX_FACTS], facts: usize) -> u16
    requires { facts ≤ max_facts narrow }
    ensures { result ≡ how_many (has marks.now) (up_to facts) }
{
    let mut n: u16 = 0;
    for f in 0..facts {
        if marks[f] == IN {
            n += 1;
        }
    }
    n
}

// Counts the constraint facts: a constraint of several rules in force counts once.
pub fn count_constraint_facts(tables: &Tables) -> u16
    ensures { result ≡ how_many (constraint_fact (held tables.now) (in_force (held tables.now))) (up_to (held tables.now).facts) }
{
    let facts = tables.facts();
    let mut marks = [0u8; MAX_FACTS];
    mark_constraint_facts(tables, &mut marks);
    count_marked(&marks, facts)
}

// Marks the plain rules.
pub fn mark_plain(tables: &Tables, marks: &mut [u8; MAX_RULES])
    requires { length marks.old ≡ max_rules }
    ensures { marks.new ≡ paint (plain_rules (held tables.now) (in_force (held tables.now))) marks.old }
{
    for i in 0..tables.rules() {
        if !tables.is_exception(RuleId(i as u16)) {
            marks[i] = IN;
        }
    }
}
