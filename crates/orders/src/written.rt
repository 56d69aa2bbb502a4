// The order for a set, written into a buffer.
ghost use Rattle.std.specs.Prelude.{◌*◌, ◌≤◌, ◌≡◌, length};
ghost use Rattle.theory.specs.Rule.{in_force};
ghost use Rattle.theory.specs.Stable.{order_for};
ghost use Rattle.items.specs.Item.{name_width, has};
ghost use Rattle.items.specs.Write.{over};
ghost use Rattle.reader.specs.Questions.{exceptions};
ghost use Rattle.questions.specs.Questions.{naming};
ghost use Rattle.tables.specs.Held.{held};

use crate::by_key::write_by_key;
use crate::groups::{GROUPS, groups_of};
use items::item::MAX_FACTS;
use tables::layout::Tables;

// Writes the order for a set to the front of the buffer: the exception rules group by group, each group ascending. Answers its
// length.
pub fn write_order(tables: &Tables, set: &[u8; MAX_FACTS], order: &mut [u8]) -> usize
    requires tables_in_bounds { name_width * exceptions (held tables.now) ≤ length order.old }
    ensures { (order.new ≡ over (naming (order_for (held tables.now) (in_force (held tables.now)) (has set.now))) order.old) × (result ≡ length (naming (order_for (held tables.now) (in_force (held tables.now)) (has set.now)))) }
{
    let groups = groups_of(tables, set);
    write_by_key(&groups, tables.rules(), GROUPS, order)
}
