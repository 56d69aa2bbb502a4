// Components that are closed. Internal.
ghost use Rattle.std.specs.Prelude.{ℕ, ◌<◌, ◌≤◌, ◌≡◌, length};
ghost use Rattle.theory.specs.Places.{rank_in};
ghost use Rattle.items.specs.Item.{narrow, max_facts};
ghost use Rattle.components.specs.Open.{fact_at, ClosedFrom};

use crate::look::CLOSED;
use crate::open::fact_at;
use items::item::MAX_FACTS;

// The highest rank of the facts from one place of the stack up to another.
// Places of the whole stack, here and below, since the contracts count from its bottom: a slice would count from `from`.
fn highest_rank(stack: &[u16; MAX_FACTS], ranks: &[u16; MAX_FACTS], from: usize, to: usize) -> u16
    requires { (from < to) × (to ≤ max_facts narrow) }
    ensures by_index { (a : ℕ) × ((from ≤ a) × ((a < to) × (result ≡ rank_in ranks.now (fact_at stack.now a)))) }
    ensures by_index_2 { (a : ℕ) → from ≤ a → a < to → rank_in ranks.now (fact_at stack.now a) ≤ result }
{
    let mut high = ranks[fact_at(stack, from)];
    for a in from + 1..to {
        high = high.max(ranks[fact_at(stack, a)]);
    }
    high
}

// Closes the facts from one place of the stack up to another. They depend on each other, so each gets the highest rank of any of them.
pub fn close_from(
    seen: &mut [u16; MAX_FACTS],
    stack: &[u16; MAX_FACTS],
    ranks: &mut [u16; MAX_FACTS],
    from: usize,
    to: usize,
)
    requires from_lt_to { (from < to) × (to ≤ max_facts narrow) }
    requires seen_len { (length seen.old ≡ max_facts narrow) × (length ranks.old ≡ max_facts narrow) }
    ensures { ClosedFrom stack.now from to seen.old ranks.old seen.new ranks.new }
{
    let high = highest_rank(stack, ranks, from, to);
    for a in from..to {
        let fact = fact_at(stack, a);
        seen[fact] = CLOSED;
        ranks[fact] = high;
    }
}
