ghost use Rattle.std.specs.Prelude.{◌≡◌, true, ℕ, ◌<◌, length, get_or, eqb};
ghost use Rattle.items.specs.Question.{first_no};
ghost use Rattle.items.specs.Item.{kind_number};
ghost use Rattle.cursors.specs.declared.cursor.Row.TheVariants.{Opening, Body, Order, Steps};
ghost use Rattle.cursors.specs.Cursor.{bad, place_questions, stayed, of_row, row_after, next_at, start_of, ReadNumbers};

use items::item::{Item, KIND_BYTES, Kind};
use items::refusal::Refusal;

// Which row of items is read: it decides the kinds that may stand there, and the refusal where none does.
#[derive(Clone, Copy, Debug, PartialEq, Eq)]
pub enum Row {
    // The first item of a file, and the items after it.
    Opening,
    Body,
    // An order, or a list of rules.
    Order,
    // A proof row.
    Steps,
}

// What can be wrong where an item is read, in the order in which it is asked.
#[derive(Clone, Copy, Debug, PartialEq, Eq)]
pub enum Fault {
    NoByte,
    OtherKind,
    ShortBody,
}

// A place between two items of a row.
#[derive(Clone, Copy, Debug, PartialEq, Eq)]
pub struct Cursor {
    pub at: usize,
    pub row: Row,
}

// A read gives the item and the cursor past it, or the cursor as it was, with the refusal or past the last item of an order, a list or a
// proof row.
#[derive(Clone, Copy, Debug, PartialEq, Eq)]
pub enum Read {
    Found(Item, Cursor),
    Refused(Refusal, Cursor),
    Ended(Cursor),
}

// The read where no item stands.
fn stay(row: Row, fault: Fault, here: Cursor) -> Read
    ensures { result ≡ stayed (first_no (place_questions row (bad fault))) here }
{
    match row {
        Row::Opening => Read::Refused(Refusal::NoFactCount, here),
        Row::Body => match fault {
            Fault::NoByte => Read::Refused(Refusal::FileCutOff, here),
            Fault::OtherKind => Read::Refused(Refusal::UnknownKind, here),
            Fault::ShortBody => Read::Refused(Refusal::BodyCutOff, here),
        },
        Row::Order => match fault {
            Fault::NoByte => Read::Ended(here),
            Fault::OtherKind => Read::Refused(Refusal::NotRuleItems, here),
            Fault::ShortBody => Read::Refused(Refusal::NotRuleItems, here),
        },
        Row::Steps => match fault {
            Fault::NoByte => Read::Ended(here),
            Fault::OtherKind => Read::Refused(Refusal::NotStepItems, here),
            Fault::ShortBody => Read::Refused(Refusal::NotStepItems, here),
        },
    }
}

// The row of the next item: the body of a file follows its opening.
fn row_after(row: Row) -> Row
    ensures { result ≡ row_after row }
{
    match row {
        Row::Opening => Row::Body,
        _ => row,
    }
}

// The read of an item whose kind is of the row. Where a call writes the kind out the compiler looks its length up, and no loop has to.
fn read_kind(row: Row, kind: Kind, bytes: &[u8], here: Cursor) -> Read
    requires { (here.row ≡ row) × (here.at < length bytes.now) × (get_or bytes.now here.at 0 ≡ kind_number kind) × (of_row row (kind_number kind) ≡ true) }
    ensures { result ≡ next_at bytes.now here }
{
    let body = here.at + KIND_BYTES;
    let length = items::lengths::body_length(kind.byte());
    if bytes.len() - body < length {
        return stay(row, Fault::ShortBody, here);
    }
    let item = items::item::item_of(kind, bytes, body);
    Read::Found(
        item,
        Cursor {
            at: body + length,
            row: row_after(row),
        },
    )
}

// The read in a row that has items of this kind only.
fn read_only(row: Row, kind: Kind, bytes: &[u8], here: Cursor) -> Read
    requires { (here.row ≡ row) × ((k : ℕ) → of_row row k ≡ eqb k (kind_number kind)) }
    ensures { result ≡ next_at bytes.now here }
{
    let at = here.at;
    if bytes.len() <= at {
        return stay(row, Fault::NoByte, here);
    }
    if bytes[at] != kind.byte() {
        return stay(row, Fault::OtherKind, here);
    }
    read_kind(row, kind, bytes, here)
}

impl Cursor {
    // Where a row begins.
    pub fn start(row: Row) -> Cursor
        ensures { result ≡ start_of row }
    {
        Cursor { at: 0, row }
    }

    // Moves past one whole item, or says why there is none.
    pub fn next(self, bytes: &[u8]) -> Read
        ensures value { result ≡ next_at bytes.now self }
        ensures read_numbers { ReadNumbers bytes.now self result }
    {
        let row = self.row;
        match row {
            Row::Opening => self.next_opening(bytes),
            Row::Body => self.next_in_body(bytes),
            Row::Order => self.next_name(bytes),
            Row::Steps => self.next_step(bytes),
        }
    }

    // The read of each row. Internal: a loop that knows its row calls the read itself.

    // The first item of a file.
    fn next_opening(self, bytes: &[u8]) -> Read
        requires { self.row ≡ Opening }
        ensures { result ≡ next_at bytes.now self }
    {
        read_only(Row::Opening, Kind::Facts, bytes, self)
    }

    // In the body of a file.
    pub fn next_in_body(self, bytes: &[u8]) -> Read
        requires { self.row ≡ Body }
        ensures { result ≡ next_at bytes.now self }
    {
        let at = self.at;
        if bytes.len() <= at {
            return stay(Row::Body, Fault::NoByte, self);
        }
        let Some(kind) = Kind::of_byte(bytes[at]) else {
            return stay(Row::Body, Fault::OtherKind, self);
        };
        match kind {
            Kind::Opens => read_kind(Row::Body, Kind::Opens, bytes, self),
            Kind::Premise => read_kind(Row::Body, Kind::Premise, bytes, self),
            Kind::Constraint => read_kind(Row::Body, Kind::Constraint, bytes, self),
            Kind::Unread => read_kind(Row::Body, Kind::Unread, bytes, self),
            Kind::Rules => read_kind(Row::Body, Kind::Rules, bytes, self),
            Kind::Facts | Kind::Names | Kind::Step => stay(Row::Body, Fault::OtherKind, self),
        }
    }

    // In an order, or a list of rules.
    pub fn next_name(self, bytes: &[u8]) -> Read
        requires { self.row ≡ Order }
        ensures { result ≡ next_at bytes.now self }
    {
        read_only(Row::Order, Kind::Names, bytes, self)
    }

    // In a proof row.
    pub fn next_step(self, bytes: &[u8]) -> Read
        requires { self.row ≡ Steps }
        ensures { result ≡ next_at bytes.now self }
    {
        read_only(Row::Steps, Kind::Step, bytes, self)
    }
}
