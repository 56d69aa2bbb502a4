// The operations for callers in C and Rust: plain numbers by value, and no type of the engine. Each is an operation below,
// with its answer as numbers. The crate retention_c exports them.

#![tactic(auto)]

ghost use Rattle.std.specs.Prelude.{◌≡◌, length};
ghost use Rattle.reader.specs.Accept.{accept_of};
ghost use Rattle.run.specs.Outcome.{run_outcome};
ghost use Rattle.judge.specs.Judged.{judged};
ghost use Rattle.proofcheck.specs.Checked.{checked};
ghost use Rattle.search.specs.Outcome.{search_outcome};
ghost use Rattle.keeping.specs.Outcome.{grounds_outcome};
ghost use Rattle.layers.specs.Outcome.{layered_outcome};
ghost use Rattle.generator.specs.Outcome.{load_outcome};
ghost use Rattle.better.specs.Outcome.{choice_of};
ghost use Rattle.panel_lines.specs.Text.{panel_text, shown};
ghost use Rattle.replies.specs.Reply.{file_of, verdict_of, RunReply, run_reply, SearchReply, search_reply, GroundsReply, grounds_reply, LayeredReply, layered_reply, LoadReply, load_reply, reply_of_choice};

use replies::{ChoiceReply, Count, FileReply, RunCounts, Verdict};

// Is the file accepted, and what does it count?
pub fn retention_accept(file: &[u8]) -> FileReply
    ensures { result ≡ file_of (accept_of file.now) }
{
    FileReply::from(reader::accept(file))
}

// Runs a file under an order.
pub fn retention_run(
    file: &[u8],
    order: &[u8],
    fact_marks: &mut [u8],
    rule_marks: &mut [u8],
    steps: &mut [u8],
) -> RunCounts
    ensures { ◌≡◌ {A = RunReply} (record { reply = result; fact_marks = fact_marks.new; rule_marks = rule_marks.new; steps = steps.new }) (run_reply (run_outcome file.now order.now fact_marks.old rule_marks.old steps.old)) }
{
    RunCounts::from(run::run(file, order, fact_marks, rule_marks, steps))
}

// Runs a file under an order, and keeps of its steps those that matter for a fact.
pub fn retention_grounds(
    file: &[u8],
    order: &[u8],
    fact: u32,
    fact_marks: &mut [u8],
    rule_marks: &mut [u8],
    steps: &mut [u8],
) -> Count
    ensures { ◌≡◌ {A = GroundsReply} (record { reply = result; fact_marks = fact_marks.new; rule_marks = rule_marks.new; steps = steps.new }) (grounds_reply (grounds_outcome file.now order.now fact fact_marks.old rule_marks.old steps.old)) }
{
    Count::from(keeping::grounds(file, order, fact, fact_marks, rule_marks, steps))
}

// Is a set stable for a file less some listed exception rules?
pub fn retention_judge(file: &[u8], list: &[u8], set: &[u8]) -> Verdict
    ensures { result ≡ verdict_of (judged file.now list.now set.now) }
{
    Verdict::from(judge::judge(file, list, set))
}

// Is a row of steps a proof of a fact that a set admits?
pub fn retention_check(file: &[u8], set: &[u8], fact: u32, proof: &[u8]) -> Verdict
    ensures { result ≡ verdict_of (checked file.now set.now fact proof.now) }
{
    Verdict::from(proofcheck::check(file, set, fact, proof))
}

// Searches a file for its earliest stable set.
pub fn retention_search(
    file: &[u8],
    fact_marks: &mut [u8],
    rule_marks: &mut [u8],
    steps: &mut [u8],
    order: &mut [u8],
) -> RunCounts
    ensures { ◌≡◌ {A = SearchReply} (record { reply = result; fact_marks = fact_marks.new; rule_marks = rule_marks.new; steps = steps.new; order = order.new }) (search_reply (search_outcome file.now fact_marks.old rule_marks.old steps.old order.old)) }
{
    RunCounts::from(search::search(file, fact_marks, rule_marks, steps, order))
}

// The order by rank of a layered file.
pub fn retention_layered(file: &[u8], order: &mut [u8]) -> Count
    ensures { ◌≡◌ {A = LayeredReply} (record { reply = result; order = order.new }) (layered_reply (layered_outcome file.now order.old)) }
{
    Count::from(layers::layered(file, order))
}

// Which of two orders sets aside fewer rules in the run of a file. A reference cannot be handed to a caller in C, so it is told which of the two is handed back.
pub fn retention_better(file: &[u8], first: &[u8], second: &[u8]) -> ChoiceReply
    ensures { result ≡ reply_of_choice (choice_of file.now first.now second.now) }
{
    ChoiceReply::from(better::choose(file, first, second))
}

// A test load: a file of so many rules over so many facts, drawn from a start.
pub fn retention_load(start: u32, facts: u32, rules: u32, out: &mut [u8]) -> Count
    ensures { ◌≡◌ {A = LoadReply} (record { reply = result; out = out.new }) (load_reply (load_outcome start facts rules out.old)) }
{
    Count::from(generator::load(start, facts, rules, out))
}

// The panel's text for a file, written where it fits. Answers its length.
pub fn retention_panel(file: &[u8], out: &mut [u8]) -> u32
    ensures { (result ≡ length (panel_text file.now)) × (out.new ≡ shown (panel_text file.now) out.old) }
{
    panel_text::render(file, out) as u32
}
