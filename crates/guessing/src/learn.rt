// What a conflict refutes. Internal.
ghost use Rattle.std.specs.Prelude.{◌<◌, length};
ghost use Rattle.tables.specs.Held.{held};
ghost use Rattle.nogoods.specs.Nogoods.{Refutes};
ghost use Rattle.guessing.specs.Guessing.{fits_at, Conflict};
ghost use Rattle.guessing.specs.Bounds.{Between};

use crate::bounds::Bounds;
use crate::guesses::Guessing;
use nogoods::guess::{has_bit, turn_bit};
use nogoods::nogood::Nogood;

// Every place of a guess.
const EVERY_PLACE: u32 = 65535;

// What a conflict teaches: a nogood, and the bounds, tightened where it asks for one place alone.
#[derive(Clone, Copy)]
pub struct Lesson {
    pub nogood: Nogood,
    pub bounds: Bounds,
}

impl Guessing<'_> {
    // The guess with the bit of one place more turned over, where the conflict stays: out becomes in where the fact of the conflict is derived though it is
    // out, and in becomes out where it is in and not derived. So the guess refutes more.
    fn turn_over(&self, guess: u32, conflict: usize, place: usize) -> u32
        requires { Conflict (held self.now.tables.now) self.now.row.now self.now.base.now guess conflict × (place < length self.now.row.now) }
        ensures { Conflict (held self.now.tables.now) self.now.row.now self.now.base.now result conflict }
    {
        if place == conflict || has_bit(guess, place) != has_bit(guess, conflict) {
            return guess;
        }
        let other = turn_bit(guess, place);
        let derived = self.respond(other);
        if has_bit(derived, conflict) == has_bit(other, conflict) {
            return guess;
        }
        other
    }

    // The guess with as many of the free bits turned over as the conflict bears, the lowest first: the guesses that come next differ from it there. The other bits
    // are the same in all guesses that can fit.
    fn widen(&self, guess: u32, conflict: usize, free: u32) -> u32
        requires { Conflict (held self.now.tables.now) self.now.row.now self.now.base.now guess conflict }
        ensures { Conflict (held self.now.tables.now) self.now.row.now self.now.base.now result conflict }
    {
        let mut wide = guess;
        for place in 0..self.row.len() {
            if has_bit(free, place) {
                wide = self.turn_over(wide, conflict, place);
            }
        }
        wide
    }

    // A nogood from a conflict: all guesses that contain a guess where a fact is in and not derived, or all within one where it is derived though it is out. At the
    // places where all guesses that fit are the same it asks nothing, so that more of the guesses that come next are passed over with it.
    pub fn learn(&self, guess: u32, conflict: usize, bounds: Bounds) -> Lesson
        requires conflict { Conflict (held self.now.tables.now) self.now.row.now self.now.base.now guess conflict }
        requires between { Between (held self.now.tables.now) self.now.row.now self.now.base.now bounds.low bounds.high }
        ensures refutes { Refutes (fits_at (held self.now.tables.now) self.now.row.now self.now.base.now) result.nogood.mask result.nogood.value }
        ensures between_2 { Between (held self.now.tables.now) self.now.row.now self.now.base.now result.bounds.low result.bounds.high }
    {
        let wide = self.widen(guess, conflict, bounds.low ^ bounds.high);
        let place = 1u32 << conflict;
        if has_bit(wide, conflict) {
            let mask = wide & (EVERY_PLACE ^ bounds.low);
            let nogood = Nogood { mask, value: mask };
            if mask == place {
                let high = bounds.high & (EVERY_PLACE ^ place);
                return Lesson {
                    nogood,
                    bounds: Bounds {
                        high,
                        apart: false,
                        ..bounds
                    },
                };
            }
            return Lesson { nogood, bounds };
        }
        let mask = bounds.high & (EVERY_PLACE ^ wide);
        let nogood = Nogood { mask, value: 0 };
        if mask == place {
            let low = bounds.low | place;
            return Lesson {
                nogood,
                bounds: Bounds {
                    low,
                    apart: false,
                    ..bounds
                },
            };
        }
        Lesson { nogood, bounds }
    }
}
