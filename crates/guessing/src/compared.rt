// A guess beside what it derives. Internal.
ghost use Rattle.std.specs.Prelude.{◌≤◌, ◌≡◌, true, ltb, length};
ghost use Rattle.theory.specs.Rule.{all};
ghost use Rattle.items.specs.Item.{narrow, max_facts, max_guessed};
ghost use Rattle.guessing.specs.Compared.{Compares};

use index::cells::LITERALS;
use nogoods::guess::has_bit;

// Compares a guess with the facts of the row that are marked: the highest place where they are apart, if there is one.
pub fn compare(row: &[u16], guess: u32, marks: &[u8; LITERALS]) -> Option<usize>
    requires { (length row.now ≤ max_guessed) × (all (λ k. ltb k (max_facts narrow)) row.now ≡ true) }
    ensures { Compares row.now guess marks.now result }
{
    for (i, &fact) in row.iter().enumerate() {
        let place = row.len() - 1 - i;
        if (marks[usize::from(fact)] == 1) != has_bit(guess, place) {
            return Some(place);
        }
    }
    None
}
