// The rules that an order sets aside, counted on the tables of an accepted file. Internal.
ghost use Rattle.std.specs.Prelude.{◌≡◌};
ghost use Rattle.tables.specs.Held.{held};
ghost use Rattle.questions.specs.Questions.{named_in};
ghost use Rattle.run.specs.Stands.{MayOrder};
ghost use Rattle.better.specs.Outcome.{preferred};
ghost use Rattle.better.specs.Counted.{aside_in};

use crate::answer::Choice;
use items::item::{MAX_FACTS, MAX_RULES};
use results::marks::count_set_aside;
use run::stages::run_in_memory;
use tables::layout::Tables;

// How many rules an order that names exception rules alone sets aside. The run is made in working memory.
fn aside_under(tables: &Tables, order: &[u8]) -> usize
    requires may_order { MayOrder (held tables.now) (named_in order.now) }
    ensures { result ≡ aside_in tables.now.cells order.now }
{
    let mut marks = [0u8; MAX_FACTS];
    let mut fired = [0u16; MAX_FACTS];
    let mut applied = [0u8; MAX_RULES];
    run_in_memory(tables, order, &mut marks, &mut fired, &mut applied);
    count_set_aside(tables, &applied, &marks)
}

// The better of two orders that name exception rules alone. No order sets aside fewer than none, so behind a first one that sets nothing aside the second is not
// run.
pub fn choose_tabled(tables: &Tables, first: &[u8], second: &[u8]) -> Choice
    requires may_order { MayOrder (held tables.now) (named_in first.now) × MayOrder (held tables.now) (named_in second.now) }
    ensures { result ≡ preferred (aside_in tables.now.cells first.now) (aside_in tables.now.cells second.now) }
{
    let aside = aside_under(tables, first);
    if aside == 0 {
        return Choice::First;
    }
    if aside_under(tables, second) < aside {
        Choice::Second
    } else {
        Choice::First
    }
}
