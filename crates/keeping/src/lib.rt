// Shorter grounds for one fact: the steps of a run that matter for it.

#![tactic(auto)]

ghost use Rattle.std.specs.Prelude.{◌≡◌, length};
ghost use Rattle.questions.specs.Questions.{grounds_no};
ghost use Rattle.keeping.specs.Outcome.{GroundsOutcome, grounds_outcome, GroundsNumbers};

pub mod tabled;

use items::refusal::Refusal;
use tables::layout::Tables;

// Runs a file under an order, and writes the run's marks and, of its steps, only those that matter for a fact: the fact's own step, the steps of its
// rule's premises, and so on back, in their old order. Answers how many they are, or the first no; a fact that the run did not derive gets one.
pub fn grounds(
    file: &[u8],
    order: &[u8],
    fact: u32,
    fact_marks: &mut [u8],
    rule_marks: &mut [u8],
    steps: &mut [u8],
) -> Result<u16, Refusal>
    ensures fact { ◌≡◌ {A = GroundsOutcome} (record { answer = result; fact_marks = fact_marks.new; rule_marks = rule_marks.new; steps = steps.new }) (grounds_outcome file.now order.now fact fact_marks.old rule_marks.old steps.old) }
    ensures grounds_numbers { GroundsNumbers file.now order.now fact (grounds_no file.now order.now fact (length fact_marks.old) (length rule_marks.old) (length steps.old)) result }
{
    let mut tables = Tables::empty();
    // The questions as the run asks them: one function for both would take six arguments in place of these lines.
    reader::scan::scan(file, &mut tables)?;
    let facts = fact_marks.len();
    let rules = rule_marks.len();
    naming::asked::ask_tabled(&tables, order, facts, rules, steps.len())?;
    tabled::grounds_tabled(&tables, order, fact, fact_marks, rule_marks, steps)
}
