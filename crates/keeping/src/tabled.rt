// The grounds for one fact on the tables of an accepted file, under an accepted order. Internal.
ghost use Rattle.std.specs.Prelude.{◌≡◌, length};
ghost use Rattle.items.specs.Item.{narrow, max_facts, has};
ghost use Rattle.tables.specs.Held.{held};
ghost use Rattle.questions.specs.Questions.{named_in};
ghost use Rattle.run.specs.Stands.{MayRun, run_in};
ghost use Rattle.keeping.specs.Outcome.{GroundsOutcome};
ghost use Rattle.keeping.specs.Told.{grounds_told};

use items::item::{FactId, MAX_FACTS, MAX_RULES};
use items::refusal::Refusal;
use kept_steps::keep::keep_grounds;
use marking::marks::IN;
use results::written::write_results;
use run::stages::run_in_memory;
use tables::layout::Tables;

// Is the fact marked as derived? No number past the marks is.
fn is_derived(marks: &[u8; MAX_FACTS], fact: u32) -> bool
    requires { length marks.now ≡ max_facts narrow }
    ensures { result ≡ has marks.now fact }
{
    let number = fact as usize;
    if number >= MAX_FACTS {
        return false;
    }
    marks[number] == IN
}

// The run is made in working memory, so that a fact that it did not derive leaves every lent byte as it was.
pub fn grounds_tabled(
    tables: &Tables,
    order: &[u8],
    fact: u32,
    fact_marks: &mut [u8],
    rule_marks: &mut [u8],
    steps: &mut [u8],
) -> Result<u16, Refusal>
    requires may_run { MayRun (held tables.now) (named_in order.now) (length fact_marks.old) (length rule_marks.old) (length steps.old) }
    ensures { ◌≡◌ {A = GroundsOutcome} (record { answer = result; fact_marks = fact_marks.new; rule_marks = rule_marks.new; steps = steps.new }) (grounds_told (held tables.now) (run_in tables.now.cells order.now) fact fact_marks.old rule_marks.old steps.old) }
{
    let mut marks = [0u8; MAX_FACTS];
    let mut fired = [0u16; MAX_FACTS];
    let mut applied = [0u8; MAX_RULES];
    let taken = run_in_memory(tables, order, &mut marks, &mut fired, &mut applied);
    if !is_derived(&marks, fact) {
        return Err(Refusal::NotDerived);
    }
    let mut kept = [0u16; MAX_FACTS];
    let count = usize::from(taken.steps);
    let n = keep_grounds(tables, &fired[..count], FactId(fact as u16), &mut kept);
    write_results(
        tables,
        &marks,
        &applied,
        &kept[..n],
        fact_marks,
        rule_marks,
        steps,
    );
    Ok(n as u16)
}
