// The walk. Internal.
ghost use Rattle.std.specs.Prelude.{ℕ, ◌<◌, ◌≤◌, ◌≡◌, List, get_or, Ok};
ghost use Rattle.theory.specs.Rule.{Program, count};
ghost use Rattle.items.specs.Item.{narrow, max_facts};
ghost use Rattle.tables.specs.Held.{held};
ghost use Rattle.threads.specs.Threads.{thread_end};
ghost use Rattle.components.specs.Open.{seen_of, fact_at, unmet};
ghost use Rattle.descent.specs.Standing.{rule_key, WalkStands, WalkRests, TurnLeaves, WalkLeaves, RanksFound};

use components::close::close_from;
use components::look::{Cyclic, Look, UNMET, look_at_rule};
use components::open::{Standing, fact_at, merge_roots, open_fact, opener_at, root_place};
use items::item::{FactId, MAX_FACTS, MAX_RULES, RuleId};
use tables::layout::{Tables, wide};
use threads::END;

// Before a walk from a fact none is open.
const NONE_OPEN: Standing = Standing {
    height: 0,
    roots: 0,
    at: 0,
};

// A walk along dependencies, where it stands: for each fact its next rule to look at, what is known of it and its rank so far; the facts that are open, and
// the roots among them.
#[derive(Drop)]
struct Walker {
    todo: [u16; MAX_FACTS],
    seen: [u16; MAX_FACTS],
    ranks: [u16; MAX_FACTS],
    stack: [u16; MAX_FACTS],
    roots: [u16; MAX_FACTS],
    standing: Standing,
}

impl Walker {
    // A fact has no rule left to look at: where it is the last root its component is closed. Then the fact that opened it is looked at again, as its cell of
    // the stack tells. The facts between the two have no rule left either: to pass them each time would take quadratic time. No fact opened the first one, but
    // when that is left none is open.
    fn leave(&mut self)
        requires { (0 < self.old.standing.height) × (self.old.standing.height ≤ max_facts narrow) × (0 < self.old.standing.roots) × (self.old.standing.roots ≤ max_facts narrow) × (self.old.standing.at < self.old.standing.height) }
        ensures { (P : Program) (next : List ℕ) → WalkStands P next self.old → get_or self.old.todo (fact_at self.old.stack self.old.standing.at) 0 ≡ thread_end → TurnLeaves P next self.old (Ok tt) self.new }
    {
        let Standing { height, roots, at } = self.standing;
        self.standing.at = opener_at(&self.stack, at);
        if at <= root_place(&self.roots, roots - 1) {
            close_from(&mut self.seen, &self.stack, &mut self.ranks, at, height);
            self.standing.height = at;
            self.standing.roots = roots - 1;
        }
    }

    // One turn: looks at the next rule of the present fact. A fact that was not met is opened, and is the present one then; an open premise makes one component
    // of all that is behind it; where no rule is left the fact is left.
    fn take_turn(&mut self, tables: &Tables, next: &[u16; MAX_RULES]) -> Result<(), Cyclic>
        requires in_range { 0 < self.old.standing.height }
        requires stands { WalkStands (held tables.now) next.now self.old }
        ensures { TurnLeaves (held tables.now) next.now self.old result self.new }
    {
        let Standing { height, roots, at } = self.standing;
        let fact = fact_at(&self.stack, at);
        let rule = self.todo[fact];
        if rule == END {
            self.leave();
            return Ok(());
        }
        match look_at_rule(tables, RuleId(rule), &self.seen, &self.ranks)? {
            Look::Unmet(found, barring) => {
                open_fact(
                    &mut self.seen,
                    &mut self.stack,
                    &mut self.roots,
                    self.standing,
                    found,
                    barring,
                );
                self.standing = Standing {
                    height: height + 1,
                    roots: roots + 1,
                    at: height,
                };
            }
            Look::Seen { low, high } => {
                if self.ranks[fact] < high {
                    self.ranks[fact] = high;
                }
                self.todo[fact] = next[wide(rule)];
                self.standing.roots = merge_roots(&self.roots, roots, low)?;
            }
        }
        Ok(())
    }

    // Walks from a fact that was not met until no fact is open, or until it meets a cycle.
    fn walk_from(
        &mut self,
        tables: &Tables,
        next: &[u16; MAX_RULES],
        fact: FactId,
    ) -> Result<(), Cyclic>
        requires walk_rests { WalkRests (held tables.now) next.now self.old }
        requires fact_bound { (fact.0 < (held tables.now).facts) × (seen_of self.old.seen fact.0 ≡ unmet) }
        ensures { WalkLeaves (held tables.now) next.now self.old fact.0 result self.new }
    {
        open_fact(
            &mut self.seen,
            &mut self.stack,
            &mut self.roots,
            NONE_OPEN,
            fact,
            false,
        );
        self.standing = Standing {
            height: 1,
            roots: 1,
            at: 0,
        };
        while self.standing.height > 0 {
            self.take_turn(tables, next)?;
        }
        Ok(())
    }
}

// The key of a rule: its conclusion, or END where it is withheld, so that no walk looks at it. The conclusion is read first: so the loop over the rules takes several at a time.
fn rule_key(tables: &Tables, rule: RuleId) -> u16
    requires { rule.0 < count (held tables.now) }
    ensures { result ≡ rule_key (held tables.now) rule.0 }
{
    let fact = tables.conclusion(rule);
    if tables.is_withheld(rule) {
        END
    } else {
        fact.0
    }
}

// The key of each rule.
fn keys_of(tables: &Tables) -> [u16; MAX_RULES]
    ensures { (i : ℕ) → i < count (held tables.now) → get_or result i 0 ≡ rule_key (held tables.now) i }
{
    threads::keys_of(tables.rules(), |rule| rule_key(tables, rule))
}

// Walks from every fact. Gives each its least rank, from 0 on; where it meets a cycle there are no ranks.
pub fn walk(tables: &Tables) -> Result<[u16; MAX_FACTS], Cyclic>
    ensures { RanksFound (held tables.now) result }
{
    let keys = keys_of(tables);
    let mut next = [0u16; MAX_RULES];
    let mut walker = Walker {
        todo: [END; MAX_FACTS],
        seen: [UNMET; MAX_FACTS],
        ranks: [0; MAX_FACTS],
        stack: [0; MAX_FACTS],
        roots: [0; MAX_FACTS],
        standing: NONE_OPEN,
    };
    threads::thread(&keys, tables.rules(), &mut walker.todo, &mut next);
    let facts = tables.facts();
    for f in 0..facts {
        if walker.seen[f] == UNMET {
            walker.walk_from(tables, &next, FactId(f as u16))?;
        }
    }
    Ok(walker.ranks)
}
