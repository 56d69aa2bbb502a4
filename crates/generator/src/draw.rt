// The draws. Internal.
ghost use Rattle.std.specs.Prelude.{◌≡◌, ◌+◌, ◌%◌, ◌<◌, ◌≤◌};
ghost use Rattle.generator.specs.Draws.{increment, states, taken};
ghost use Rattle.generator.specs.Outcome.{most_facts};
ghost use Rattle.generator.specs.Drawing.{Divides};

// What each draw adds to the state.
const INCREMENT: u32 = 2654435769;

// What the state is divided by.
const DIVISOR: u32 = 65536;

// A product by the inverse has the quotient above this.
const SCALE: u64 = 4294967296;

// The count of facts, and the factor that stands for a division by it: each draw multiplies, since a division takes longer.
#[derive(Clone, Copy)]
pub struct Modulus {
    pub facts: u32,
    pub inverse: u64,
}

pub fn modulus_of(facts: u32) -> Modulus
    requires { (0 < facts) × (facts ≤ most_facts) }
    ensures { (result.facts ≡ facts) × Divides result }
{
    Modulus {
        facts,
        inverse: SCALE / (facts as u64) + 1,
    }
}

// The state behind one more draw.
pub fn step(state: u32) -> u32
    ensures { result ≡ (state + increment) % states }
{
    std::num::wrapping_add_u32(state, INCREMENT)
}

// The fact that a draw takes whose state this is.
pub fn fact_of(state: u32, by: Modulus) -> u16
    requires { Divides by }
    ensures { (result ≡ taken by.facts state) × (result < by.facts) }
{
    let facts = by.facts;
    let inverse = by.inverse;
    let high = state / DIVISOR;
    let quotient = ((high as u64) * inverse / SCALE) as u32;
    (high - quotient * facts) as u16
}
