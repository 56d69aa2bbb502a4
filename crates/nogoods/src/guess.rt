// A guess as a number, a bit for each guessed fact. Internal.
ghost use Rattle.std.specs.Prelude.{◌<◌, ◌≡◌};
ghost use Rattle.theory.specs.Guesses.{bit};
ghost use Rattle.items.specs.Item.{max_guessed};
ghost use Rattle.nogoods.specs.Nogoods.{guesses};

// The most facts that are guessed.
pub const MAX_GUESSED: usize = 16;

// Is the bit of a place set?
pub fn has_bit(number: u32, place: usize) -> bool
    requires { place < max_guessed }
    ensures { result ≡ bit number place }
{
    (number >> place) % 2 == 1
}

// The guess with the bit of a place turned over. That it differs there alone is not needed: who turns a bit tests what it gives.
pub fn turn_bit(guess: u32, place: usize) -> u32
    requires { (guess < guesses) × (place < max_guessed) }
    ensures { result < guesses }
{
    guess ^ (1u32 << place)
}
