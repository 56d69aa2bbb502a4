// The stages of a run on the tables of an accepted file, under an accepted order. Internal.
ghost use Rattle.std.specs.Prelude.{◌≡◌, length, Ok};
ghost use Rattle.theory.specs.Rule.{in_force};
ghost use Rattle.theory.specs.Run.{run, stage_count};
ghost use Rattle.items.specs.Item.{max_rules};
ghost use Rattle.tables.specs.Held.{held};
ghost use Rattle.questions.specs.Questions.{named_in};
ghost use Rattle.premises.specs.Plain.{Zeroed};
ghost use Rattle.stage.specs.Memory.{Holds};
ghost use Rattle.run.specs.Outcome.{RunOutcome, run_written};
ghost use Rattle.run.specs.Stands.{outset, Began, Held, RunCounted, MayOrder, MayRun, run_in};

use crate::answer::Ran;
use bits::matrix::MATRIX_WORDS;
use bits::row::ROW_WORDS;
use closure::start::start;
use items::item::{MAX_FACTS, MAX_RULES};
use marking::marks::mark_plain;
use naming::row::order_row;
use premises::fill::index_row;
use premises::plain::PLAIN_WORDS;
use premises::wake::wake;
use results::written::write_results;
use stage::eligible::first_eligible;
use stage::staged::Stage;
use tables::layout::Tables;

// D is closed for the first time by the plain rules in force, with the index and the counts that later stages go on with. Answers the number of steps; no
// fact is barred yet.
fn begin(
    tables: &Tables,
    index: &mut [u64; PLAIN_WORDS],
    marks: &mut [u8; MAX_FACTS],
    missing: &mut [u16; MAX_RULES],
    fired: &mut [u16; MAX_FACTS],
) -> usize
    requires zeroed { Zeroed index.old × (length missing.old ≡ max_rules) }
    requires holds { Holds (held tables.now) outset marks.old fired.old 0 }
    ensures { Began (held tables.now) index.new marks.new missing.new fired.new result }
{
    let mut plain = [0u8; MAX_RULES];
    mark_plain(tables, &mut plain);
    start(tables, &plain, index, marks, missing, fired).unwrap()
}

// All stages along an order, from working memory that is empty. A stage takes the first eligible rule among the places that
// are awake; the facts that it derives wake the places whose premises they complete.
fn all_stages(
    tables: &Tables,
    row: &[u16],
    marks: &mut [u8; MAX_FACTS],
    fired: &mut [u16; MAX_FACTS],
    applied: &mut [u8; MAX_RULES],
) -> Ran
    requires may_order { MayOrder (held tables.now) row.now }
    requires held { Held (held tables.now) outset marks.old fired.old applied.old 0 }
    ensures held_2 { Held (held tables.now) (run (held tables.now) (in_force (held tables.now)) row.now) marks.new fired.new applied.new result.steps }
    ensures stages_value { result.stages ≡ stage_count (run (held tables.now) (in_force (held tables.now)) row.now) }
{
    let mut asks = [0u64; MATRIX_WORDS];
    let mut lacks = [0u16; MAX_RULES];
    let mut awake = [0u64; ROW_WORDS];
    index_row(tables, row, &mut asks, &mut lacks, &mut awake);
    let mut index = [0u64; PLAIN_WORDS];
    let mut missing = [0u16; MAX_RULES];
    let mut stages: u16 = 0;
    let mut count = begin(tables, &mut index, marks, &mut missing, fired);
    wake(tables, &asks, &fired[..count], &mut lacks, &mut awake);
    while let Some(Stage { rule, steps }) = first_eligible(
        tables,
        row,
        &index,
        marks,
        &mut missing,
        fired,
        count,
        &mut awake,
    ) {
        wake(tables, &asks, &fired[count..steps], &mut lacks, &mut awake);
        applied[usize::from(rule.0)] = 1;
        count = steps;
        stages += 1;
    }
    Ran {
        stages,
        steps: count as u16,
    }
}

// The run under an order that names exception rules alone, in working memory that is empty. What it derived stands in the marks, the rules of its
// steps among those that fired, the rules of its stages among those applied.
pub fn run_in_memory(
    tables: &Tables,
    order: &[u8],
    marks: &mut [u8; MAX_FACTS],
    fired: &mut [u16; MAX_FACTS],
    applied: &mut [u8; MAX_RULES],
) -> Ran
    requires may_order { MayOrder (held tables.now) (named_in order.now) }
    requires held { Held (held tables.now) outset marks.old fired.old applied.old 0 }
    ensures held_2 { Held (held tables.now) (run_in tables.now.cells order.now) marks.new fired.new applied.new result.steps }
    ensures run_counted { RunCounted (run_in tables.now.cells order.now) result.stages result.steps }
{
    let mut row = [0u16; MAX_RULES];
    let names = order_row(order, &mut row);
    all_stages(tables, &row[..names], marks, fired, applied)
}

// The run under an order that names exception rules alone, into buffers that are large enough.
pub fn run_tabled(
    tables: &Tables,
    order: &[u8],
    fact_marks: &mut [u8],
    rule_marks: &mut [u8],
    steps: &mut [u8],
) -> Ran
    requires may_run { MayRun (held tables.now) (named_in order.now) (length fact_marks.old) (length rule_marks.old) (length steps.old) }
    ensures { ◌≡◌ {A = RunOutcome} (record { answer = Ok result; fact_marks = fact_marks.new; rule_marks = rule_marks.new; steps = steps.new }) (run_written (held tables.now) (run_in tables.now.cells order.now) fact_marks.old rule_marks.old steps.old) }
{
    let mut marks = [0u8; MAX_FACTS];
    let mut fired = [0u16; MAX_FACTS];
    // A row of bytes, since `has` reads it as a set, 1 in and 0 out.
    let mut applied = [0u8; MAX_RULES];
    let taken = run_in_memory(tables, order, &mut marks, &mut fired, &mut applied);
    let count = usize::from(taken.steps);
    write_results(
        tables,
        &marks,
        &applied,
        &fired[..count],
        fact_marks,
        rule_marks,
        steps,
    );
    taken
}
