// What a rule of an open fact says. Internal.
ghost use Rattle.std.specs.Prelude.{◌<◌, ◌≡◌, true, false, Ok};
ghost use Rattle.theory.specs.Rule.{count, in_force};
ghost use Rattle.tables.specs.Held.{held};
ghost use Rattle.tables.specs.Ranking.{RanksSoFar};
ghost use Rattle.items.specs.declared.refusal.Refusal.TheVariants.{NotLayered};
ghost use Rattle.components.specs.Look.{PartFinds, LookFinds};

use items::item::{FactId, MAX_FACTS, RuleId};
use items::refusal::Refusal;
use tables::layout::{Tables, wide};
use tables::own::in_file_order;

// What is known of a fact, where it is not the place of an open one.
// Codes, in one cell with the places: a closed fact, as most are, is told by one comparison; with a test for each case the walk took a quarter longer.
pub const UNMET: u16 = 65535;

pub const CLOSED: u16 = 65534;

// Where no fact is open.
// It lies behind every place, so the lowest place is found by comparing alone; an Option would ask one case more each time.
pub const NOWHERE: u16 = 65535;

// The places of open facts are below this.
const PLACES: u16 = MAX_FACTS as u16;

// A cycle of dependencies goes through a constraint: there are no ranks.
#[derive(Clone, Copy, Debug, PartialEq, Eq)]
pub struct Cyclic;

impl From<Cyclic> for Refusal {
    ghost from_gives = { λ _ r. r ≡ NotLayered };

    fn from(_cyclic: Cyclic) -> Refusal {
        Refusal::NotLayered
    }
}

// What looking at a rule finds, where no constraint is open: a fact that was not met yet, as a premise or as a constraint; or, of facts that were all
// met, the lowest place of an open premise and the rank that the closed ones ask. A constraint that is open closes a cycle.
// The bool answers what `open_fact` asks, whether a constraint met the fact: an enum of the two parts would be turned into that answer there.
#[derive(Clone, Copy)]
pub enum Look {
    Unmet(FactId, bool),
    Seen { low: u16, high: u16 },
}

// Looks at the premises of a rule in force.
fn look_at_premises(
    tables: &Tables,
    rule: RuleId,
    seen: &[u16; MAX_FACTS],
    ranks: &[u16; MAX_FACTS],
) -> Look
    requires rule_known { rule.0 < count (held tables.now) }
    requires ranks_so_far { RanksSoFar (held tables.now) ranks.now }
    requires rule_value { in_force (held tables.now) rule.0 ≡ true }
    ensures { PartFinds (held tables.now) rule.0 false seen.now ranks.now (Ok result) }
{
    let mut low = NOWHERE;
    let mut high: u16 = 0;
    for &premise in tables.premises(rule) {
        let fact = wide(premise);
        let known = seen[fact];
        // Most facts are closed: they are told by one test.
        if known != CLOSED {
            if known == UNMET {
                return Look::Unmet(FactId(premise), false);
            }
            if known < PLACES {
                if known < low {
                    low = known;
                }
            }
        }
        let rank = ranks[fact];
        if high < rank {
            high = rank;
        }
    }
    Look::Seen { low, high }
}

// Looks at the constraints of a rule in force.
fn look_at_constraints(
    tables: &Tables,
    rule: RuleId,
    seen: &[u16; MAX_FACTS],
    ranks: &[u16; MAX_FACTS],
) -> Result<Look, Cyclic>
    requires rule_known { rule.0 < count (held tables.now) }
    requires ranks_so_far { RanksSoFar (held tables.now) ranks.now }
    requires rule_value { in_force (held tables.now) rule.0 ≡ true }
    ensures { PartFinds (held tables.now) rule.0 true seen.now ranks.now result }
{
    let mut high: u16 = 0;
    let own = tables.constraints(rule);
    for at in 0..own.len() {
        let constraint = in_file_order(own, at);
        let fact = wide(constraint);
        let known = seen[fact];
        if known != CLOSED {
            if known == UNMET {
                return Ok(Look::Unmet(FactId(constraint), true));
            }
            if known < PLACES {
                return Err(Cyclic);
            }
        }
        let above = ranks[fact] + 1;
        if high < above {
            high = above;
        }
    }
    Ok(Look::Seen { low: NOWHERE, high })
}

// Looks at a rule in force: at its premises, then at its constraints.
pub fn look_at_rule(
    tables: &Tables,
    rule: RuleId,
    seen: &[u16; MAX_FACTS],
    ranks: &[u16; MAX_FACTS],
) -> Result<Look, Cyclic>
    requires rule_known { rule.0 < count (held tables.now) }
    requires ranks_so_far { RanksSoFar (held tables.now) ranks.now }
    requires rule_value { in_force (held tables.now) rule.0 ≡ true }
    ensures { LookFinds (held tables.now) rule.0 seen.now ranks.now result }
{
    let premises = look_at_premises(tables, rule, seen, ranks);
    let Look::Seen { low, high } = premises else {
        return Ok(premises);
    };
    let constraints = look_at_constraints(tables, rule, seen, ranks)?;
    let Look::Seen {
        low: _,
        high: above,
    } = constraints
    else {
        return Ok(constraints);
    };
    Ok(Look::Seen {
        low,
        high: high.max(above),
    })
}
