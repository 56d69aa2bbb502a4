// The questions on orders and on lists of rules.
ghost use Rattle.std.specs.Prelude.{ℕ, ◌≡◌, List, replicate};
ghost use Rattle.theory.specs.Rule.{count, exception};
ghost use Rattle.items.specs.Question.{first_no};
ghost use Rattle.items.specs.Item.{max_rules};
ghost use Rattle.tables.specs.Held.{held};
ghost use Rattle.questions.specs.Questions.{order_no, ask_list_questions, ask_order_questions};
ghost use Rattle.questions.specs.Parts.{list_no};
ghost use Rattle.questions.specs.Answer.{answer_of, AnswerNumbers};
ghost use Rattle.questions.specs.Named.{Listed};

use cursors::cursor::Row;
use items::item::MAX_RULES;
use items::refusal::Refusal;
use questions::whole::whole_items;
use tables::layout::Tables;

// Questions 11 to 13; the rules that the list names are marked in a table that is empty before. Internal.
pub fn ask_listed(tables: &Tables, list: &[u8], listed: &mut [u8; MAX_RULES]) -> Result<(), Refusal>
    requires fact { ◌≡◌ {A = List ℕ} listed.old (replicate max_rules 0) }
    ensures value { result ≡ answer_of (list_no (exception (held tables.now)) list.now) }
    ensures listed { Listed list.now listed.new result }
{
    if !whole_items(Row::Order, list) {
        return Err(Refusal::NotRuleItems);
    }
    crate::names::ask_names(tables, list, listed)
}

// Questions 11 to 13. Internal.
pub fn ask_list_of(tables: &Tables, list: &[u8]) -> Result<(), Refusal>
    ensures { result ≡ answer_of (list_no (exception (held tables.now)) list.now) }
{
    let mut named = [0u8; MAX_RULES];
    ask_listed(tables, list, &mut named)
}

// Questions 11 to 14. Internal.
pub fn ask_order_of(tables: &Tables, order: &[u8]) -> Result<(), Refusal>
    ensures { result ≡ answer_of (order_no (exception (held tables.now)) (count (held tables.now)) order.now) }
{
    let mut named = [0u8; MAX_RULES];
    ask_listed(tables, order, &mut named)?;
    if crate::names::all_named(tables, &named) {
        Ok(())
    } else {
        Err(Refusal::NotAllNamed)
    }
}

// The questions of the file, then 11 to 13 of the list. As `ask_order` but for the question: one function for both would take a closure in place of three lines.
pub fn ask_list(file: &[u8], list: &[u8]) -> Result<(), Refusal>
    ensures value { result ≡ answer_of (first_no (ask_list_questions file.now list.now)) }
    ensures answer_numbers { AnswerNumbers (ask_list_questions file.now list.now) result }
{
    let mut tables = Tables::empty();
    reader::scan::scan(file, &mut tables)?;
    ask_list_of(&tables, list)
}

// The questions of the file, then 11 to 14 of the order.
pub fn ask_order(file: &[u8], order: &[u8]) -> Result<(), Refusal>
    ensures value { result ≡ answer_of (first_no (ask_order_questions file.now order.now)) }
    ensures answer_numbers { AnswerNumbers (ask_order_questions file.now order.now) result }
{
    let mut tables = Tables::empty();
    reader::scan::scan(file, &mut tables)?;
    ask_order_of(&tables, order)
}
