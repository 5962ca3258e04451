// Counting eight bytes in a word at a time. A word's marks have a 1 for each byte that is not low, in that byte's place. Since
// 256 leaves 1 modulo 255, the marks of up to 254 bytes, added, leave how many bytes are not low.
ghost use Rattle.std.specs.Prelude.{◌≡◌, ◌≤◌};
ghost use Rattle.std.specs.List.{concat};
ghost use Rattle.machine.specs.All.{length, count_low};
ghost use Rattle.trace.specs.Words.{Marks};

// A 1 in each of the eight bytes of a word.
const ONES: u64 = 0x0101_0101_0101_0101;

// The marks of a word, for every word.
fn marks(word: [u8; 8]) -> u64
    ensures { Marks 8 word result }
{
    u64::from_le_bytes(word) / 0x80 & ONES
}

// How many bytes of so few words are below 80 hexadecimal. Sixteen words take few instructions only where the compiler knows that
// they are sixteen.
#[inline(always)]
pub fn count_words(words: &[[u8; 8]]) -> u64
    requires { length words.now ≤ 31 }
    ensures { result ≡ count_low (concat words.now) }
{
    let mut marked = 0;
    for word in words {
        marked += marks(*word);
    }
    8 * words.len() as u64 - marked % 255
}
