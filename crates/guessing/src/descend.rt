// The first guess from one on that nothing on the way to it refutes. Internal.
ghost use Rattle.std.specs.Prelude.{◌<◌, ◌^◌, length};
ghost use Rattle.tables.specs.Held.{held};
ghost use Rattle.guessing.specs.Descended.{Descended};

use crate::guesses::Guessing;
use index::cells::LITERALS;
use propagation::hold::hold_out;

impl Guessing<'_> {
    // From the highest place down a fact is in where it is derived already, whatever the lower ones turn out to be, or where a guess without it would come before
    // the one to begin with; else it is held out. Leaves what the guess derives, which is found on the way.
    pub fn descend(&self, from: u32, marks: &mut [u8; LITERALS]) -> u32
        requires { from < 2 ^ length self.now.row.now }
        ensures { Descended (held self.now.tables.now) self.now.row.now self.now.base.now from result marks.new }
    {
        let mut left = *self.missing;
        *marks = *self.base;
        let mut guess = (1u32 << self.row.len()) - 1;
        for (n, &fact) in self.row.iter().enumerate() {
            let lower = guess - (1u32 << (self.row.len() - (n + 1)));
            if marks[usize::from(fact)] == 1 || lower < from {
                continue;
            }
            guess = lower;
            hold_out(
                self.tables,
                self.index,
                self.row,
                n,
                n + 1,
                marks,
                &mut left,
            );
        }
        guess
    }
}
