// The run: stages of forward chaining along an order of the exception rules.

#![tactic(auto)]

ghost use Rattle.std.specs.Prelude.{◌≡◌, length};
ghost use Rattle.run.specs.Outcome.{RunOutcome, run_outcome, RunNumbers};
ghost use Rattle.questions.specs.Questions.{run_no};

pub mod answer;
pub mod stages;

use answer::Ran;
use items::refusal::Refusal;
use tables::layout::Tables;

// Runs a file under an order: writes the fact marks (0 open, 1 in D, 2 in R), the rule marks (0 plain, 1 applied at a stage, 2 set aside,
// 3 other, 4 withheld) and the steps, and answers the counts of stages and of steps, or the first no.
pub fn run(
    file: &[u8],
    order: &[u8],
    fact_marks: &mut [u8],
    rule_marks: &mut [u8],
    steps: &mut [u8],
) -> Result<Ran, Refusal>
    ensures fact { ◌≡◌ {A = RunOutcome} (record { answer = result; fact_marks = fact_marks.new; rule_marks = rule_marks.new; steps = steps.new }) (run_outcome file.now order.now fact_marks.old rule_marks.old steps.old) }
    ensures run_numbers { RunNumbers file.now order.now (run_no file.now order.now (length fact_marks.old) (length rule_marks.old) (length steps.old)) result }
{
    let mut tables = Tables::empty();
    reader::scan::scan(file, &mut tables)?;
    let facts = fact_marks.len();
    let rules = rule_marks.len();
    naming::asked::ask_tabled(&tables, order, facts, rules, steps.len())?;
    Ok(stages::run_tabled(&tables, order, fact_marks, rule_marks, steps))
}
