// What every guess that fits has, and what it can have at most. Internal.
ghost use Rattle.std.specs.Prelude.{ℕ, ◌<◌, ◌≤◌, ◌≡◌, Bool, true, ltb, length, take};
ghost use Rattle.theory.specs.Rule.{all};
ghost use Rattle.items.specs.Item.{narrow, max_facts, max_guessed};
ghost use Rattle.tables.specs.Held.{held};
ghost use Rattle.nogoods.specs.Nogoods.{most_kept, Stored};
ghost use Rattle.guessing.specs.Guessing.{fits_at};
ghost use Rattle.guessing.specs.Bounds.{Gathered, Responds, Between, BitsBetween, EndsRefuted};

use crate::guesses::Guessing;
use index::cells::LITERALS;
use nogoods::guess::{MAX_GUESSED, has_bit};
use nogoods::nogood::{MOST_KEPT, Nogood};

// So many places may differ between the bounds for a nogood of each of the two to pay: it passes over one guess alone.
const FEW_FREE: usize = 3;

// Every guess that fits has the bits of the one, and no bit that the other lacks. Where they are said to be apart, neither of them fits.
// A bool, since it answers that question alone, and both bounds are there whatever it says: an enum would name yes and no.
#[derive(Clone, Copy)]
pub struct Bounds {
    pub low: u32,
    pub high: u32,
    pub apart: bool,
}

// The facts of the row that are marked, as a number.
pub fn gather(row: &[u16], marks: &[u8; LITERALS]) -> u32
    requires { (length row.now ≤ max_guessed) × (all (λ k. ltb k (max_facts narrow)) row.now ≡ true) }
    ensures { Gathered row.now marks.now result }
{
    let mut number: u32 = 0;
    for &fact in row {
        number = 2 * number + u32::from(marks[usize::from(fact)] == 1);
    }
    number
}

impl Guessing<'_> {
    // The facts of the row that a guess derives, as a number.
    pub fn respond(&self, guess: u32) -> u32
        ensures { Responds (held self.now.tables.now) self.now.row.now self.now.base.now guess result }
    {
        let mut marks = [0u8; LITERALS];
        self.derive_guess(guess, &mut marks);
        gather(self.row, &marks)
    }

    // A guess that fits can have no more than what the guess of no fact derives, and has what that bound derives; and so on from there, until nothing changes. Then each
    // of the bounds derives the other, so that neither fits, unless they are the same.
    pub fn narrow_bounds(&self, most: u32) -> Bounds
        requires { Responds (held self.now.tables.now) self.now.row.now self.now.base.now 0 most }
        ensures between { Between (held self.now.tables.now) self.now.row.now self.now.base.now result.low result.high }
        ensures ends_refuted { result.apart ≡ true → EndsRefuted (fits_at (held self.now.tables.now) self.now.row.now self.now.base.now) result.low result.high }
    {
        let mut low: u32 = 0;
        let mut high = most;
        for _round in 0..MAX_GUESSED {
            let least = self.respond(high);
            if least == low {
                return Bounds {
                    low,
                    high,
                    apart: low != high,
                };
            }
            low = least;
            let next = self.respond(low);
            if next == high {
                return Bounds {
                    low,
                    high,
                    apart: low != high,
                };
            }
            high = next;
        }
        Bounds {
            low,
            high,
            apart: false,
        }
    }
}

// Stores for each place that is the same in all guesses that fit the nogood of the others. Answers how many there are.
fn store_places(bounds: Bounds, places: usize, nogoods: &mut [Nogood; MOST_KEPT]) -> usize
    requires { (places ≤ max_guessed) × (length nogoods.old ≡ most_kept) }
    ensures upper_bound { (result ≤ max_guessed) × (length nogoods.new ≡ most_kept) }
    ensures by_index { (pass : ℕ → Bool) → BitsBetween pass places bounds.low bounds.high → Stored pass (take result nogoods.new) }
{
    let mut kept: usize = 0;
    // The highest place first: what lies before the lowest guess between them is then passed over in few jumps.
    for place in (0..places).rev() {
        let bit = 1u32 << place;
        if has_bit(bounds.low, place) {
            // Where the other bound lacks it, no guess fits: a mask of no place refutes all.
            nogoods[kept] = Nogood {
                mask: bit & bounds.high,
                value: 0,
            };
            kept += 1;
            continue;
        }
        if has_bit(bounds.high, place) {
            continue;
        }
        nogoods[kept] = Nogood {
            mask: bit,
            value: bit,
        };
        kept += 1;
    }
    kept
}

// Stores the nogoods of the bounds, and of the bounds themselves where neither fits and few guesses are left beside them. Answers how many there are.
pub fn store_bounds(bounds: Bounds, places: usize, nogoods: &mut [Nogood; MOST_KEPT]) -> usize
    requires { (places ≤ max_guessed) × (length nogoods.old ≡ most_kept) }
    ensures upper_bound { (result ≤ most_kept) × (length nogoods.new ≡ most_kept) }
    ensures by_index { (pass : ℕ → Bool) → BitsBetween pass places bounds.low bounds.high → (bounds.apart ≡ true → EndsRefuted pass bounds.low bounds.high) → Stored pass (take result nogoods.new) }
{
    let kept = store_places(bounds, places, nogoods);
    if kept + FEW_FREE < places {
        return kept;
    }
    if bounds.apart {
        let free = bounds.low ^ bounds.high;
        nogoods[kept] = Nogood {
            mask: free,
            value: 0,
        };
        nogoods[kept + 1] = Nogood {
            mask: free,
            value: free,
        };
        return kept + 2;
    }
    kept
}
