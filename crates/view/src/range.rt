// The premises and constraints of a rule on the file's own bytes, by the range where they stand. Internal.
ghost use Rattle.std.specs.Prelude.{◌+◌, ◌*◌, ◌<◌, ◌≤◌, ◌≡◌};
ghost use Rattle.theory.specs.Rule.{count};
ghost use Rattle.items.specs.Item.{narrow, item_width};
ghost use Rattle.tables.specs.Layout.{max_own};
ghost use Rattle.tables.specs.Held.{held};
ghost use Rattle.view.specs.View.{OwnRange, taken_at};

use cursors::cursor::{Cursor, Read, Row};
use items::item::{FactId, Item, RuleId};
use items::lengths::ITEM_WIDTH;
use tables::layout::Tables;

// An item of a rule's own.
#[derive(Clone, Copy)]
pub enum Own {
    Premise(FactId),
    Constraint(FactId),
}

// An item with the place where what is left begins.
#[derive(Clone, Copy)]
pub struct Taken {
    pub item: Own,
    pub rest: usize,
}

// Where the premises and constraints of a rule still to come stand.
#[derive(Clone, Copy)]
pub struct Range {
    pub at: usize,
    pub end: usize,
}

// The range that begins at a place and has so many items.
fn range_at(place: u16, items: usize) -> Range
    requires { items ≤ max_own + max_own }
    ensures { (result.at ≡ place) × (result.end ≡ place + item_width narrow * items) }
{
    let at = place as usize;
    Range {
        at,
        end: at + ITEM_WIDTH * items,
    }
}

// The range of a rule: the tables have its place and the number of its items.
pub fn range_of(tables: &Tables, rule: RuleId) -> Range
    requires { rule.0 < count (held tables.now) }
    ensures { OwnRange tables.now.cells rule.0 result }
{
    let items = tables.premises(rule).len() + tables.constraints(rule).len();
    range_at(tables.place(rule), items)
}

// Takes the premise or constraint at the front of a range; None where there is none.
pub fn take_item(file: &[u8], at: usize, end: usize) -> Option<Taken>
    ensures { result ≡ taken_at file.now at end }
{
    if end <= at {
        return None;
    }
    let front = Cursor { at, row: Row::Body };
    match front.next_in_body(file) {
        Read::Found(Item::Premise(f), next) => Some(Taken {
            item: Own::Premise(f),
            rest: next.at,
        }),
        Read::Found(Item::Constraint(f), next) => Some(Taken {
            item: Own::Constraint(f),
            rest: next.at,
        }),
        _ => None,
    }
}
