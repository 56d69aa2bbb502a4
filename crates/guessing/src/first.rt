// The first guess that fits, as far as the nogoods that are kept decide it. Internal.
ghost use Rattle.std.specs.Prelude.{◌≡◌, true};
ghost use Rattle.tables.specs.Held.{held};
ghost use Rattle.guessing.specs.Guessing.{fits_at};
ghost use Rattle.guessing.specs.Bounds.{Between, EndsRefuted};
ghost use Rattle.guessing.specs.First.{Sought};
ghost use Rattle.guessing.specs.Descended.{Descended};

use crate::bounds::{Bounds, gather, store_bounds};
use crate::compared::compare;
use crate::guesses::Guessing;
use index::cells::LITERALS;
use nogoods::nogood::{MOST_KEPT, Nogood, next_open};

// Whether a guess fits, that none does, or the guess before which none does, where as many nogoods are kept as there is room for.
#[derive(Clone, Copy)]
pub enum First {
    Fits,
    Nothing,
    Open(u32),
}

impl Guessing<'_> {
    // Takes the guesses in ascending order from one on, less those that a nogood refutes or that are refuted on the way; each that does not fit gives a nogood more.
    // Where one fits, it leaves what it derives.
    fn search_between(&self, bounds: Bounds, from: u32, marks: &mut [u8; LITERALS]) -> First
        requires between { Between (held self.now.tables.now) self.now.row.now self.now.base.now bounds.low bounds.high }
        requires ends_refuted { bounds.apart ≡ true → EndsRefuted (fits_at (held self.now.tables.now) self.now.row.now self.now.base.now) bounds.low bounds.high }
        requires descended { Descended (held self.now.tables.now) self.now.row.now self.now.base.now 0 from marks.old }
        ensures { Sought (held self.now.tables.now) self.now.row.now self.now.base.now result marks.new }
    {
        let mut nogoods = [Nogood { mask: 0, value: 0 }; MOST_KEPT];
        let mut kept = store_bounds(bounds, self.row.len(), &mut nogoods);
        let mut guess = from;
        let mut between = bounds;
        let end = 1u32 << self.row.len();
        loop {
            guess = next_open(&nogoods[..kept], guess, end);
            if guess >= end {
                return First::Nothing;
            }
            // What the guess to begin with derives is marked already.
            if guess != from {
                guess = self.descend(guess, marks);
            }
            let Some(conflict) = compare(self.row, guess, marks) else {
                return First::Fits;
            };
            if kept == MOST_KEPT {
                return First::Open(guess);
            }
            let lesson = self.learn(guess, conflict, between);
            nogoods[kept] = lesson.nogood;
            between = lesson.bounds;
            kept += 1;
            guess += 1;
        }
    }

    // The first guess that fits: in most files it is the first that nothing on the way to it refutes. Else it lies between what every guess that fits has and what
    // it can have.
    pub fn first_guess(&self, marks: &mut [u8; LITERALS]) -> First
        ensures { Sought (held self.now.tables.now) self.now.row.now self.now.base.now result marks.new }
    {
        let first = self.descend(0, marks);
        if compare(self.row, first, marks).is_none() {
            return First::Fits;
        }
        let most = if first > 0 {
            self.respond(0)
        } else {
            gather(self.row, marks)
        };
        let bounds = self.narrow_bounds(most);
        self.search_between(bounds, first, marks)
    }
}
