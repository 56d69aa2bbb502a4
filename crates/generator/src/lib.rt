// A test load that anyone can repeat: a rule file drawn from a start.

#![tactic(auto)]

ghost use Rattle.std.specs.Prelude.{◌≡◌, length, ◌≢◌};
ghost use Rattle.generator.specs.Outcome.{LoadOutcome, load_no, load_outcome, LoadMeans, load_number};

mod draw;
mod rules;

use items::item::{Kind, MAX_RULES};
use items::lengths::{ITEM_WIDTH, LAST_WIDTH};
use items::refusal::Refusal;
use items::write::{write_fact_body, write_rule_body};
use rules::RULE_LENGTH;

// The most facts and rules of a load.
const MOST_FACTS: u32 = 255;

const MOST_RULES: u32 = MAX_RULES as u32;

// The bytes of the longest load.
pub const LOAD_ROOM: usize = ITEM_WIDTH + RULE_LENGTH * MAX_RULES + LAST_WIDTH;

// Writes the file of so many rules over so many facts that is drawn from the start over the front of the buffer, and answers its length, or the first no.
pub fn load(start: u32, facts: u32, rules: u32, out: &mut [u8]) -> Result<u16, Refusal>
    ensures fact { ◌≡◌ {A = LoadOutcome} (record { answer = result; out = out.new }) (load_outcome start facts rules out.old) }
    ensures load_means { LoadMeans start facts rules (load_no facts rules (length out.old)) (record { answer = result; out = out.new }) }
{
    if facts == 0 {
        return Err(Refusal::FactsOutOfRange);
    }
    if MOST_FACTS < facts {
        return Err(Refusal::FactsOutOfRange);
    }
    if MOST_RULES < rules {
        return Err(Refusal::RulesOutOfRange);
    }
    let last = ITEM_WIDTH + RULE_LENGTH * (rules as usize);
    let length = last + LAST_WIDTH;
    if out.len() < length {
        return Err(Refusal::LoadShort);
    }
    write_fact_body(out, 0, Kind::Facts.byte(), facts as u16);
    rules::write_rules(out, start, rules as usize, draw::modulus_of(facts));
    write_rule_body(out, last, Kind::Rules.byte(), rules as u16);
    Ok(length as u16)
}

// The same in the room that the program `load` has. Any load fits there, so it is never refused with 55.
pub fn load_in_room(
    start: u32,
    facts: u32,
    rules: u32,
    room: &mut [u8; LOAD_ROOM],
) -> Result<u16, Refusal>
    ensures fact { ◌≡◌ {A = LoadOutcome} (record { answer = result; out = room.new }) (load_outcome start facts rules room.old) }
    ensures result_nonzero { load_number result ≢ 55 }
{
    load(start, facts, rules, room)
}
