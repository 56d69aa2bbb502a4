// The view of a rule: the file as handed in, and the range of the rule's premises and constraints that are still to come. Each function over
// it is thin; the work is done in `range`.

#![tactic(auto)]

pub mod range;

ghost use Rattle.std.specs.Prelude.{◌≡◌};
ghost use Rattle.view.specs.View.{taken_at};

use range::Taken;

#[derive(Clone, Copy)]
pub struct RuleView<'a> {
    pub file: &'a [u8],
    pub at: usize,
    pub end: usize,
}

// The view of the rule whose premises and constraints stand in the range.
pub fn view_of<'a>(file: &'a [u8], at: usize, end: usize) -> RuleView<'a>
    ensures { (result.file ≡ file.entry) × (result.at ≡ at) × (result.end ≡ end) }
{
    RuleView { file, at, end }
}

// Its next item, and where what is left of it begins; None where no item is left.
pub fn next_item<'a>(view: RuleView<'a>) -> Option<Taken>
    ensures { result ≡ taken_at view.entry.file.now view.entry.at view.entry.end }
{
    range::take_item(view.file, view.at, view.end)
}
