// The steps that a run writes. Internal.
ghost use Rattle.std.specs.Prelude.{ℕ, ◌*◌, ◌≤◌, ◌<◌, ◌≡◌, map, length, get_or};
ghost use Rattle.theory.specs.Rule.{count as count_of};
ghost use Rattle.theory.specs.Derive.{step_by};
ghost use Rattle.items.specs.Item.{narrow, step_width};
ghost use Rattle.items.specs.Write.{over};
ghost use Rattle.tables.specs.Held.{held};
ghost use Rattle.closure.specs.Steps.{step_bytes};

use items::item::RuleId;
use items::lengths::STEP_WIDTH;
use items::write::write_step_item;
use tables::layout::Tables;

// The steps of a row of rules that fired, in their order.
pub fn write_steps(tables: &Tables, fired: &[u16], out: &mut [u8])
    requires steps_fit { step_width narrow * length fired.now ≤ length out.old }
    requires by_index { (k : ℕ) → k < length fired.now → get_or fired.now k 0 < count_of (held tables.now) }
    ensures { out.new ≡ over (step_bytes narrow (map (step_by (held tables.now)) fired.now)) out.old }
{
    for (k, &number) in fired.iter().enumerate() {
        let rule = RuleId(number);
        let fact = tables.conclusion(rule);
        write_step_item(out, STEP_WIDTH * k, fact, rule);
    }
}
