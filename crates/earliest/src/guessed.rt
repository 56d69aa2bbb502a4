// The facts to guess. Internal.
ghost use Rattle.std.specs.Prelude.{◌≤◌, ◌≡◌, length, take};
ghost use Rattle.items.specs.Item.{narrow, max_facts, max_guessed, has};
ghost use Rattle.theory.specs.Rule.{how_many, keep, up_to};
ghost use Rattle.theory.specs.Lists.{down_from};

use items::item::MAX_FACTS;
use nogoods::guess::MAX_GUESSED;

// Lists the marked facts below a number, from the highest down. Answers how many there are.
// Rows of fixed length, since there is no heap, with how much of them counts: the marks stay whole, as `has` reads them.
pub fn list_down(marks: &[u8; MAX_FACTS], facts: usize, row: &mut [u16; MAX_GUESSED]) -> usize
    requires { (facts ≤ max_facts narrow) × (how_many (has marks.now) (up_to facts) ≤ max_guessed) × (length row.old ≡ max_guessed) }
    ensures { (result ≤ max_guessed) × (take result row.new ≡ keep (has marks.now) (down_from facts)) }
{
    let mut n: usize = 0;
    for f in (0..facts).rev() {
        if marks[f] == 1 {
            row[n] = f as u16;
            n += 1;
        }
    }
    n
}
