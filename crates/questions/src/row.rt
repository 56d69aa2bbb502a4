// The questions on proof rows.
ghost use Rattle.std.specs.Prelude.{◌≡◌};
ghost use Rattle.items.specs.Question.{first_no};
ghost use Rattle.questions.specs.Answer.{answer_of, AnswerNumbers};
ghost use Rattle.questions.specs.Questions.{ask_row_questions};
ghost use Rattle.questions.specs.Parts.{row_no};

use cursors::cursor::Row;
use items::refusal::Refusal;
use tables::layout::Tables;

// Questions 24 and 23, for a file with this count of facts. The asked fact may be any number. Internal.
pub fn ask_row_of(facts: usize, fact: u32, row: &[u8]) -> Result<(), Refusal>
    ensures { result ≡ answer_of (row_no facts fact row.now) }
{
    if facts <= fact as usize {
        return Err(Refusal::AskedFactTooHigh);
    }
    if crate::whole::whole_items(Row::Steps, row) {
        Ok(())
    } else {
        Err(Refusal::NotStepItems)
    }
}

// The questions of the file, then 24 of the asked fact and 23 of the row. As `ask_set` but for the question: one function for both would take a closure in place of three lines.
pub fn ask_row(file: &[u8], fact: u32, row: &[u8]) -> Result<(), Refusal>
    ensures value { result ≡ answer_of (first_no (ask_row_questions file.now fact row.now)) }
    ensures answer_numbers { AnswerNumbers (ask_row_questions file.now fact row.now) result }
{
    let mut tables = Tables::empty();
    let counts = reader::scan::scan(file, &mut tables)?;
    ask_row_of(counts.facts as usize, fact, row)
}
