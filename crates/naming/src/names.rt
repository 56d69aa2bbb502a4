// The rules that an order or a list names. Internal.
ghost use Rattle.std.specs.Prelude.{◌≡◌, not, ◌||◌, length};
ghost use Rattle.theory.specs.Rule.{all, up_to, count, exception};
ghost use Rattle.items.specs.Question.{first_no};
ghost use Rattle.items.specs.Item.{max_rules, has};
ghost use Rattle.tables.specs.Held.{held};
ghost use Rattle.questions.specs.Questions.{named_in, name_questions, names_questions};
ghost use Rattle.questions.specs.Answer.{answer_of};
ghost use Rattle.questions.specs.Named.{Named, AllNamed};

use cursors::cursor::{Cursor, Read, Row};
use items::item::{Item, MAX_RULES, RuleId};
use items::refusal::Refusal;
use tables::layout::Tables;

// Questions 12 and 13 of one item; a rule that gets yes is marked as named, in a row of bytes, since `has` reads it as a set, 1 in and 0 out.
pub fn ask_name(tables: &Tables, rule: RuleId, named: &mut [u8; MAX_RULES]) -> Result<(), Refusal>
    requires { length named.old ≡ max_rules }
    ensures value { result ≡ answer_of (first_no (name_questions (exception (held tables.now)) (has named.old) rule.0)) }
    ensures named { Named rule.0 named.old named.new result }
    ensures named_len { length named.new ≡ max_rules }
{
    let number = rule.0 as usize;
    if tables.rules() <= number || !tables.is_exception(rule) {
        return Err(Refusal::NotAnException);
    }
    if named[number] == 1 {
        return Err(Refusal::NamedTwice);
    }
    named[number] = 1;
    Ok(())
}

// Questions 12 and 13 of each item in turn.
pub fn ask_names(tables: &Tables, bytes: &[u8], named: &mut [u8; MAX_RULES]) -> Result<(), Refusal>
    requires { length named.old ≡ max_rules }
    ensures value { result ≡ answer_of (first_no (names_questions (exception (held tables.now)) (has named.old) (named_in bytes.now))) }
    ensures all_named { AllNamed (named_in bytes.now) named.old named.new result }
{
    let mut cursor = Cursor::start(Row::Order);
    while let Read::Found(item, next) = cursor.next_name(bytes) {
        if let Item::Names(rule) = item {
            ask_name(tables, rule, named)?;
        }
        cursor = next;
    }
    Ok(())
}

// Is every exception rule named?
pub fn all_named(tables: &Tables, named: &[u8; MAX_RULES]) -> bool
    ensures { result ≡ all (λ i. not (exception (held tables.now) i) || has named.now i) (up_to (count (held tables.now))) }
{
    let rules = tables.rules();
    for i in 0..rules {
        if tables.is_exception(RuleId(i as u16)) {
            let missed = named[i] != 1;
            if missed {
                return false;
            }
        }
    }
    true
}
