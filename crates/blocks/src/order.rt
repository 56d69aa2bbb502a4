// The order in which rules are looked at: each after rules that derive its premises, where that can be. It is for speed alone. Internal.
ghost use Rattle.std.specs.Prelude.{◌≤◌, ◌≡◌, length, take};
ghost use Rattle.items.specs.Item.{narrow, max_facts, max_rules};
ghost use Rattle.tables.specs.Held.{held};
ghost use Rattle.blocks.specs.Order.{InOrder, Placing, PlacedReady};

use items::item::{MAX_FACTS, MAX_RULES, RuleId};
use tables::layout::Tables;

// Lists behind the first n the rules in force that are not listed yet and have their premises in the set, which their conclusions join. Answers how many are
// listed then.
// The order is a row of fixed length, since there is no heap: `n` is how many stand in it, and the place of the next.
fn list_ready(
    tables: &Tables,
    set: &mut [u8; MAX_FACTS],
    listed: &mut [u8; MAX_RULES],
    order: &mut [u16; MAX_RULES],
    n: usize,
) -> usize
    requires { Placing (held tables.now) listed.old order.old n × (length set.old ≡ max_facts narrow) }
    ensures placing { Placing (held tables.now) listed.new order.new result × (n ≤ result) × (length set.new ≡ max_facts narrow) }
    ensures placed_ready { PlacedReady (held tables.now) set.old listed.new }
{
    let mut n = n;
    for i in 0..tables.rules() {
        let rule = RuleId(i as u16);
        if listed[i] == 1 || tables.is_withheld(rule) || !tables.premises_in(rule, set) {
            continue;
        }
        let fact = tables.conclusion(rule);
        set[fact.0 as usize] = 1;
        listed[i] = 1;
        order[n] = i as u16;
        n += 1;
    }
    n
}

// Lists the rules in force as they become ready if every constraint is held out, and behind them those that never do. Answers how many there are.
pub fn order_rules(tables: &Tables, order: &mut [u16; MAX_RULES]) -> usize
    requires { length order.old ≡ max_rules }
    ensures upper_bound { result ≤ max_rules }
    ensures in_order { InOrder (held tables.now) (take result order.new) }
{
    let mut set = [0u8; MAX_FACTS];
    // Rows of bytes, since `has` reads them as sets, 1 in and 0 out.
    let mut listed = [0u8; MAX_RULES];
    let mut n: usize = 0;
    loop {
        let more = list_ready(tables, &mut set, &mut listed, order, n);
        if more == n {
            break;
        }
        n = more;
    }
    let mut every = [1u8; MAX_FACTS];
    list_ready(tables, &mut every, &mut listed, order, n)
}
