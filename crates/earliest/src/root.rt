// The search for the earliest stable set, from the tables. Internal.
ghost use Rattle.std.specs.Prelude.{ℕ, ◌≤◌, ◌≡◌, List, length, replicate};
ghost use Rattle.theory.specs.Rule.{in_force};
ghost use Rattle.theory.specs.Search.{guessed, search};
ghost use Rattle.items.specs.Item.{max_guessed};
ghost use Rattle.tables.specs.Held.{held};
ghost use Rattle.index.specs.Literal.{literals};
ghost use Rattle.guessing.specs.First.{Sought};
ghost use Rattle.earliest.specs.Root.{AtRoot, Shown, Kept};

use guessing::first::First;
use guessing::guesses::Guessing;
use index::cells::{INDEX_WORDS, LITERALS};
use index::fill::index_rules;
use items::item::{MAX_FACTS, MAX_RULES};
use propagation::none::hold_none;
use tables::layout::Tables;

// The facts marked, without what is held out.
fn keep_facts(marks: &[u8; LITERALS]) -> [u8; MAX_FACTS]
    ensures { Kept marks.now result }
{
    let mut found = [0u8; MAX_FACTS];
    found.copy_from_slice(&marks[..MAX_FACTS]);
    found
}

// The first guesses, one by one. The index is no longer needed where they do not decide it, so it is not kept.
fn guess_first(
    tables: &Tables,
    row: &[u16],
    base: &mut [u8; LITERALS],
    marks: &mut [u8; LITERALS],
) -> First
    requires row_guessed { (row.now ≡ guessed (held tables.now) (in_force (held tables.now))) × (length row.now ≤ max_guessed) }
    requires fact { ◌≡◌ {A = List ℕ} base.old (replicate literals 0) }
    ensures at_root { AtRoot (held tables.now) row.now base.new }
    ensures sought { Sought (held tables.now) row.now base.new result marks.new }
{
    let off = [0u8; MAX_RULES];
    let mut index = [0u64; INDEX_WORDS];
    let mut missing = [0u16; MAX_RULES];
    index_rules(tables, &off, &mut index, &mut missing);
    hold_none(tables, &index, base, &mut missing);
    let guessing = Guessing {
        tables,
        index: &index,
        row,
        base,
        missing: &missing,
    };
    guessing.first_guess(marks)
}

// The marks of the earliest stable set of a program, if there is one. The row has its constraint facts from the highest-numbered down.
pub fn earliest(tables: &Tables, row: &[u16]) -> Option<[u8; MAX_FACTS]>
    requires { (row.now ≡ guessed (held tables.now) (in_force (held tables.now))) × (length row.now ≤ max_guessed) }
    ensures { Shown (search (held tables.now) (in_force (held tables.now))) result }
{
    let mut base = [0u8; LITERALS];
    let mut marks = [0u8; LITERALS];
    match guess_first(tables, row, &mut base, &mut marks) {
        First::Fits => Some(keep_facts(&marks)),
        First::Nothing => None,
        First::Open(guess) => blocks::find::find(tables, row, &base, guess),
    }
}
