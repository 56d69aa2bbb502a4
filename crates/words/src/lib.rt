// The number that a word says, where it says one.

#![tactic(auto)]

ghost use Rattle.std.specs.Prelude.{◌≡◌};
ghost use Rattle.words.specs.Word.{word_of};

// The most digits of a number that a word says.
pub const LONGEST_NUMBER: usize = 10;

// The highest number.
const MOST_VALUE: u64 = 4294967295;

// The number of a word of 1 to 10 decimal digits, at most 4,294,967,295. Ten digits may say more than a u32 holds, so they are added up in
// a u64.
pub fn number_of(word: &[u8]) -> Option<u32>
    ensures { result ≡ word_of word.now }
{
    if word.is_empty() || LONGEST_NUMBER < word.len() {
        return None;
    }
    let mut value: u64 = 0;
    for &byte in word {
        let above = b'9' < byte;
        if byte < b'0' || above {
            return None;
        }
        value = value * 10 + u64::from(byte - b'0');
    }
    if MOST_VALUE < value {
        return None;
    }
    Some(value as u32)
}
