// One word of a row. Internal.
ghost use Rattle.std.specs.Prelude.{zero, ◌<◌, ◌-◌, ◌*◌, ◌/◌, ◌^◌, ◌≡◌};
ghost use Rattle.std.specs.Int.Bits.{bit_and, bit_or, bit_xor};
ghost use Rattle.std.specs.Int.Count.{count_trailing_zeros};
ghost use Rattle.bits.specs.Flags.{word_bits};

// The word with a bit set.
pub fn with_bit(word: u64, bit: usize) -> u64
    requires { bit < word_bits }
    ensures { result ≡ bit_or word (2 ^ bit) }
{
    word | (1u64 << bit)
}

// The place of the lowest bit that is set.
pub fn lowest_bit(word: u64) -> usize
    requires { zero < word }
    ensures { (result ≡ count_trailing_zeros word_bits word) × (result < word_bits) }
{
    word.trailing_zeros() as usize
}

// The word with its lowest bit cleared.
pub fn without_lowest(word: u64) -> u64
    requires { zero < word }
    ensures { result ≡ bit_and word (word - 1) }
{
    word & (word - 1)
}

// The bits of a word from one on.
pub fn bits_from(word: u64, from: usize) -> u64
    requires { from < word_bits }
    ensures { result ≡ word / 2 ^ from * 2 ^ from }
{
    (word >> from) << from
}

// The word with a bit that is set cleared.
pub fn without_bit(word: u64, bit: usize) -> u64
    requires { bit < word_bits }
    ensures { result ≡ bit_xor word (2 ^ bit) }
{
    word ^ (1u64 << bit)
}
