// The search: the earliest stable set of a file, an order that leads the run to it, and that run's marks and steps.

#![tactic(auto)]

ghost use Rattle.std.specs.Prelude.{◌≡◌, length};
ghost use Rattle.reader.specs.Accepted.{Accepted};
ghost use Rattle.reader.specs.Scanned.{Tabled};
ghost use Rattle.questions.specs.Questions.{search_no};
ghost use Rattle.search.specs.Outcome.{SearchOutcome, search_outcome, SearchMeans};

mod asked;
mod found;

use items::refusal::Refusal;
use reader::answer::FileCounts;
use run::answer::Ran;
use tables::layout::Tables;

// Searches a file for its earliest stable set: writes an order of its exception rules under which the run ends at that set, and the marks and
// the steps of that run, and answers the run's counts of stages and of steps, or the first no.
pub fn search(
    file: &[u8],
    fact_marks: &mut [u8],
    rule_marks: &mut [u8],
    steps: &mut [u8],
    order: &mut [u8],
) -> Result<Ran, Refusal>
    ensures fact { ◌≡◌ {A = SearchOutcome} (record { answer = result; fact_marks = fact_marks.new; rule_marks = rule_marks.new; steps = steps.new; order = order.new }) (search_outcome file.now fact_marks.old rule_marks.old steps.old order.old) }
    ensures search_means { SearchMeans file.now (search_no file.now (length fact_marks.old) (length rule_marks.old) (length steps.old) (length order.old)) (record { answer = result; fact_marks = fact_marks.new; rule_marks = rule_marks.new; steps = steps.new; order = order.new }) }
{
    let mut tables = Tables::empty();
    let counts = reader::scan::scan(file, &mut tables)?;
    search_scanned(file, &tables, counts, fact_marks, rule_marks, steps, order)
}

// The questions after the file's own, and then the search. Internal.
fn search_scanned(
    file: &[u8],
    tables: &Tables,
    counts: FileCounts,
    fact_marks: &mut [u8],
    rule_marks: &mut [u8],
    steps: &mut [u8],
    order: &mut [u8],
) -> Result<Ran, Refusal>
    requires { Accepted file.now counts × Tabled file.now tables.now.cells }
    ensures { ◌≡◌ {A = SearchOutcome} (record { answer = result; fact_marks = fact_marks.new; rule_marks = rule_marks.new; steps = steps.new; order = order.new }) (search_outcome file.now fact_marks.old rule_marks.old steps.old order.old) }
{
    asked::ask_search(
        tables,
        counts,
        fact_marks.len(),
        rule_marks.len(),
        steps.len(),
        order.len(),
    )?;
    found::search_accepted(file, tables, fact_marks, rule_marks, steps, order)
}
