// What a guess derives. Internal.
ghost use Rattle.std.specs.Prelude.{◌≤◌, ◌≡◌, length, take};
ghost use Rattle.theory.specs.Guesses.{left_out};
ghost use Rattle.items.specs.Item.{max_guessed};
ghost use Rattle.tables.specs.Held.{held};
ghost use Rattle.guessing.specs.Guessing.{Derived};

use crate::guesses::Guessing;
use index::cells::LITERALS;
use nogoods::guess::{MAX_GUESSED, has_bit};
use propagation::hold::hold_out;

// Lists the facts of the row that a guess leaves out. Answers how many there are.
// They are written into a row of fixed length, since there is no heap: the answer tells how much of it counts.
fn list_out(row: &[u16], guess: u32, outs: &mut [u16; MAX_GUESSED]) -> usize
    requires { (length row.now ≤ max_guessed) × (length outs.old ≡ max_guessed) }
    ensures { (result ≤ max_guessed) × (take result outs.new ≡ left_out row.now guess) }
{
    let mut n: usize = 0;
    for (i, &fact) in row.iter().enumerate() {
        if !has_bit(guess, row.len() - 1 - i) {
            outs[n] = fact;
            n += 1;
        }
    }
    n
}

impl Guessing<'_> {
    // Marks what a guess derives: beside the facts held out at the base, those of the row that are not in it are held out.
    pub fn derive_guess(&self, guess: u32, marks: &mut [u8; LITERALS])
        ensures { Derived (held self.now.tables.now) self.now.row.now self.now.base.now guess marks.new }
    {
        let mut outs = [0u16; MAX_GUESSED];
        let n = list_out(self.row, guess, &mut outs);
        let mut left = *self.missing;
        *marks = *self.base;
        hold_out(self.tables, self.index, &outs[..n], 0, n, marks, &mut left);
    }
}
