ghost use Rattle.std.specs.Prelude.{◌≡◌, ◌+◌, ◌≤◌, Some, None, length, take, drop};
ghost use Rattle.items.specs.Item.{narrow, fact_bytes, rule_bytes, no_such_kind, body_length, kind_number, big_endian, item_of};

// A fact number and a rule number are counted separately, each from 0, and each indexes its own marks.
#[derive(Clone, Copy, Debug, PartialEq, Eq, PartialOrd, Ord, Hash)]
pub struct FactId(pub u16);

#[derive(Clone, Copy, Debug, PartialEq, Eq, PartialOrd, Ord, Hash)]
pub struct RuleId(pub u16);

// A whole item of a rule file, an order, a list of rules or a proof row.
#[derive(Clone, Copy, Debug, PartialEq, Eq)]
pub enum Item {
    // The count of facts: the first item of a file.
    Facts(u16),
    // Opens a rule with this conclusion.
    Opens(FactId),
    // A premise and a constraint of the rule last opened.
    Premise(FactId),
    Constraint(FactId),
    // The count of rules: the last item of a file.
    Rules(u16),
    // A rule in an order or in a list of rules set aside.
    Names(RuleId),
    // A step of a proof: the fact that it derives, and the rule.
    Step(FactId, RuleId),
    // A fact that could not be read: between the first item of a file and its first rule.
    Unread(FactId),
}

// The kinds of items, in a file and beside it. The number of each is the byte that stands for it.
#[derive(Clone, Copy, Debug, PartialEq, Eq)]
pub enum Kind {
    Opens = 0x01,
    Premise = 0x02,
    Constraint = 0x03,
    Names = 0x05,
    Step = 0x06,
    Unread = 0x07,
    Facts = 0x10,
    Rules = 0x1F,
}

impl Kind {
    // The byte that stands for the kind.
    pub fn byte(self) -> u8
        ensures { result ≡ kind_number self }
    {
        self as u8
    }

    // The kind that a byte stands for, if there is one. The kinds of a rule's items are neighbours, and the others lie behind them. In one match they would be
    // a jump through a table of addresses, and where premises and constraints stand mixed a file takes a fifth longer and more to read.
    pub fn of_byte(byte: u8) -> Option<Kind>
        ensures found { (k : Kind) → result ≡ Some k → byte ≡ kind_number k }
        ensures other { result ≡ None → body_length narrow byte ≡ no_such_kind }
    {
        if (Kind::Constraint as u8) < byte {
            return match byte {
                0x05 => Some(Kind::Names),
                0x06 => Some(Kind::Step),
                0x07 => Some(Kind::Unread),
                0x10 => Some(Kind::Facts),
                0x1F => Some(Kind::Rules),
                _ => None,
            };
        }
        match byte {
            0x01 => Some(Kind::Opens),
            0x02 => Some(Kind::Premise),
            0x03 => Some(Kind::Constraint),
            _ => None,
        }
    }
}

// The bytes of a kind, and of a fact number.
pub const KIND_BYTES: usize = 1;

pub const FACT_BYTES: usize = 1;

// A number of several bytes has them as its digits, in this base.
pub const BASE: u16 = 256;

const BYTE_BITS: usize = 8;

// A table of this length has a place for every fact number, and one of this for every rule.
pub const MAX_FACTS: usize = 1 << (BYTE_BITS * FACT_BYTES);

pub const MAX_RULES: usize = 512;

// The most premise and constraint items of one rule, repeats counted.
pub const MAX_RULE_ITEMS: usize = 24;

// The most bytes of a file.
pub const MAX_BYTES: usize = 32767;

// The fact number, or count of facts, at a place.
fn fact_field(bytes: &[u8], at: usize) -> u16
    requires { at + fact_bytes narrow ≤ length bytes.now }
    ensures { result ≡ big_endian (take (fact_bytes narrow) (drop at bytes.now)) }
{
    u16::from(bytes[at])
}

// The rule number, or count of rules, at a place: high byte first.
fn rule_field(bytes: &[u8], at: usize) -> u16
    requires { at + rule_bytes ≤ length bytes.now }
    ensures { result ≡ big_endian (take rule_bytes (drop at bytes.now)) }
{
    u16::from(bytes[at]) * BASE + u16::from(bytes[at + 1])
}

// The item of a kind whose body starts at a place. Internal: the cursor has seen that the kind is of its row, and the body whole.
pub fn item_of(kind: Kind, bytes: &[u8], at: usize) -> Item
    requires { at + body_length narrow (kind_number kind) ≤ length bytes.now }
    ensures { result ≡ item_of narrow (kind_number kind) (take (body_length narrow (kind_number kind)) (drop at bytes.now)) }
{
    match kind {
        Kind::Facts => Item::Facts(fact_field(bytes, at)),
        Kind::Opens => Item::Opens(FactId(fact_field(bytes, at))),
        Kind::Premise => Item::Premise(FactId(fact_field(bytes, at))),
        Kind::Constraint => Item::Constraint(FactId(fact_field(bytes, at))),
        Kind::Rules => Item::Rules(rule_field(bytes, at)),
        Kind::Names => Item::Names(RuleId(rule_field(bytes, at))),
        Kind::Unread => Item::Unread(FactId(fact_field(bytes, at))),
        Kind::Step => Item::Step(
            FactId(fact_field(bytes, at)),
            RuleId(rule_field(bytes, at + FACT_BYTES)),
        ),
    }
}
