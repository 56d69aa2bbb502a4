// Fact sets: one byte for each fact, 1 in, 0 out.
ghost use Rattle.std.specs.Prelude.{◌≡◌};
ghost use Rattle.items.specs.Question.{first_no};
ghost use Rattle.items.specs.Item.{has};
ghost use Rattle.questions.specs.Questions.{ask_set_questions, zero_or_one};
ghost use Rattle.questions.specs.Parts.{set_no};
ghost use Rattle.questions.specs.Answer.{answer_of, AnswerNumbers};

use items::item::FactId;
use items::refusal::Refusal;
use tables::layout::Tables;

// Is the fact in the set? No fact past the end of the bytes is. Internal.
pub fn in_set(set: &[u8], fact: FactId) -> bool
    ensures { result ≡ has set.now fact.0 }
{
    let number = fact.0 as usize;
    number < set.len() && set[number] == 1
}

// Is every byte 0 or 1? Internal.
fn zero_or_one(set: &[u8]) -> bool
    ensures { result ≡ zero_or_one set.now }
{
    set.iter().all(|&byte| byte <= 1)
}

// Questions 21 and 22, for a file with this count of facts. Internal.
pub fn ask_set_of(facts: usize, set: &[u8]) -> Result<(), Refusal>
    ensures { result ≡ answer_of (set_no facts set.now) }
{
    if set.len() != facts {
        return Err(Refusal::WrongSetLength);
    }
    if zero_or_one(set) {
        Ok(())
    } else {
        Err(Refusal::NotZeroOrOne)
    }
}

// The questions of the file, then 21 and 22 of the set.
pub fn ask_set(file: &[u8], set: &[u8]) -> Result<(), Refusal>
    ensures value { result ≡ answer_of (first_no (ask_set_questions file.now set.now)) }
    ensures answer_numbers { AnswerNumbers (ask_set_questions file.now set.now) result }
{
    let mut tables = Tables::empty();
    let counts = reader::scan::scan(file, &mut tables)?;
    ask_set_of(counts.facts as usize, set)
}
