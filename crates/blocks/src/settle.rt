// The lanes of a block are settled. Internal.
ghost use Rattle.std.specs.Prelude.{ℕ, ◌<◌, ◌≡◌, Bool, true, List, ltb, length, replicate};
ghost use Rattle.theory.specs.Rule.{all, count, nothing};
ghost use Rattle.items.specs.Item.{narrow, max_facts};
ghost use Rattle.tables.specs.Held.{held};
ghost use Rattle.bits.specs.Flags.{Flags};
ghost use Rattle.premises.specs.Premises.{Places, in_row, Asked, ripe};
ghost use Rattle.lanes.specs.Lanes.{lane_cells};
ghost use Rattle.blocks.specs.Order.{InOrder};
ghost use Rattle.blocks.specs.Settling.{MetAll, Fired, Stepped, Settled};

use bits::matrix::{MATRIX_WORDS, join_row};
use bits::row::{ROW_WORDS, take_next};
use items::item::RuleId;
use lanes::words::{EVERY_LANE, LANE_CELLS, LANE_WORDS, join, meet};
use tables::layout::{Tables, wide};

// Keeps the lanes that have every fact of a part of a rule: those that derive its premises, or those that hold out its constraints.
fn meet_all(part: &[u16], words: &[u64; LANE_CELLS], body: &mut [u64; LANE_WORDS])
    requires { all (λ f. ltb f (max_facts narrow)) part.now ≡ true }
    ensures { MetAll part.now words.now body.old body.new }
{
    for &fact in part {
        meet(words, wide(fact), body);
    }
}

// Derives the conclusion of a rule in the lanes where its premises are derived and its constraints held out. Was it new in some?
// The bool answers that question itself: nothing else is handed out with it.
fn fire(
    tables: &Tables,
    rule: RuleId,
    outs: &[u64; LANE_CELLS],
    derived: &mut [u64; LANE_CELLS],
) -> bool
    requires { (rule.0 < count (held tables.now)) × (length derived.old ≡ lane_cells) }
    ensures { Fired (held tables.now) rule.0 outs.now derived.old derived.new result }
{
    let mut body = [EVERY_LANE; LANE_WORDS];
    meet_all(tables.premises(rule), derived, &mut body);
    meet_all(tables.constraints(rule), outs, &mut body);
    let fact = tables.conclusion(rule);
    join(derived, fact.0 as usize, &body)
}

// Looks at one rule. Where its conclusion is new in some lane, the rules that ask it are to be looked at again.
fn step(
    tables: &Tables,
    rule: RuleId,
    asks: &[u64; MATRIX_WORDS],
    outs: &[u64; LANE_CELLS],
    derived: &mut [u64; LANE_CELLS],
    pending: &mut [u64; ROW_WORDS],
)
    requires { (rule.0 < count (held tables.now)) × (length derived.old ≡ lane_cells) }
    ensures { (R : Places) (p : ℕ → Bool) → Asked (held tables.now) R asks.now → Flags p pending.old → Stepped (held tables.now) R p rule.0 outs.now derived.old pending.old derived.new pending.new }
{
    let fired = fire(tables, rule, outs, derived);
    if fired {
        let fact = tables.conclusion(rule);
        join_row(asks, fact.0 as usize, pending);
    }
}

// Derives in every lane all that follows from the facts that it holds out, which are fixed; nothing is derived before. First the rules without premises are
// looked at, then those of which a premise is new in some lane. They come in turn, so that in one round through the rules each is looked at once, and what a
// round derives goes at least one step further: no lane takes more rounds than there are facts.
pub fn settle(
    tables: &Tables,
    order: &[u16],
    asks: &[u64; MATRIX_WORDS],
    awake: &[u64; ROW_WORDS],
    outs: &[u64; LANE_CELLS],
    derived: &mut [u64; LANE_CELLS],
)
    requires in_order { InOrder (held tables.now) order.now × Asked (held tables.now) (in_row order.now) asks.now × Flags (ripe (held tables.now) (in_row order.now) nothing) awake.now }
    requires fact { ◌≡◌ {A = List ℕ} derived.old (replicate lane_cells 0) }
    ensures { Settled (held tables.now) outs.now derived.new }
{
    let mut pending = *awake;
    let mut from: usize = 0;
    while let Some(place) = take_next(&mut pending, from) {
        from = place + 1;
        step(
            tables,
            RuleId(order[place]),
            asks,
            outs,
            derived,
            &mut pending,
        );
    }
}
