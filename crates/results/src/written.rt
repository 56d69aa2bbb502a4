// Everything that a run writes. Internal.
ghost use Rattle.std.specs.Prelude.{◌≡◌, map, length};
ghost use Rattle.theory.specs.Rule.{mem, in_force};
ghost use Rattle.theory.specs.Derive.{step_by};
ghost use Rattle.theory.specs.Run.{Stand, rejected, marks_of_facts, marks_of_rules};
ghost use Rattle.items.specs.Item.{narrow, has};
ghost use Rattle.items.specs.Write.{over};
ghost use Rattle.tables.specs.Held.{held};
ghost use Rattle.marking.specs.Marks.{barred_in};
ghost use Rattle.closure.specs.Steps.{step_bytes};
ghost use Rattle.results.specs.Writable.{Writable};

use crate::marks::{write_fact_marks, write_rule_marks};
use crate::steps::write_steps;
use items::item::{MAX_FACTS, MAX_RULES};
use tables::layout::Tables;

// The marks of the facts and of the rules, and the steps of a row of rules that fired.
pub fn write_results(
    tables: &Tables,
    marks: &[u8; MAX_FACTS],
    applied: &[u8; MAX_RULES],
    fired: &[u16],
    fact_marks: &mut [u8],
    rule_marks: &mut [u8],
    steps: &mut [u8],
)
    requires writable { Writable (held tables.now) marks.now fired.now (length fact_marks.old) (length rule_marks.old) (length steps.old) }
    ensures fact_marks_after { (s : Stand) → has marks.now ≡ s.derived → barred_in marks.now ≡ rejected (held tables.now) s.applied → fact_marks.new ≡ over (marks_of_facts (held tables.now) s) fact_marks.old }
    ensures rule_marks_after { (s : Stand) → has marks.now ≡ s.derived → has applied.now ≡ (λ i. mem i s.applied) → rule_marks.new ≡ over (marks_of_rules (held tables.now) (in_force (held tables.now)) s) rule_marks.old }
    ensures steps_after { steps.new ≡ over (step_bytes narrow (map (step_by (held tables.now)) fired.now)) steps.old }
{
    let facts = tables.facts();
    write_fact_marks(marks, facts, fact_marks);
    write_rule_marks(tables, applied, marks, rule_marks);
    write_steps(tables, fired, steps);
}
