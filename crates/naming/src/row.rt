// The rules that an order names, read once into a row of numbers. Internal.
ghost use Rattle.std.specs.Prelude.{◌≤◌, ◌≡◌, length, take};
ghost use Rattle.items.specs.Item.{max_rules};
ghost use Rattle.questions.specs.Questions.{named_in};

use cursors::cursor::{Cursor, Read, Row};
use items::item::{Item, MAX_RULES};

// Writes the numbers of the rules named to the front of the row, in their order, and answers how many they are.
pub fn order_row(order: &[u8], row: &mut [u16; MAX_RULES]) -> usize
    requires order_len_bound { length (named_in order.now) ≤ max_rules }
    requires row_len { length row.old ≡ max_rules }
    ensures row_after { take result row.new ≡ named_in order.now }
    ensures value { result ≡ length (named_in order.now) }
    ensures row_len_2 { length row.new ≡ max_rules }
{
    let mut cursor = Cursor::start(Row::Order);
    let mut n: usize = 0;
    while let Read::Found(item, next) = cursor.next_name(order) {
        cursor = next;
        if let Item::Names(rule) = item {
            row[n] = rule.0;
            n += 1;
        }
    }
    n
}
