// Lines of text: letters, then numbers with one space between, then a line feed.
ghost use Rattle.std.specs.Prelude.{◌≡◌, ◌+◌, ◌*◌, ◌≤◌, ◌<◌};
ghost use Rattle.machine.specs.All.{length, drop, sets};
ghost use Rattle.runmodel.specs.Line.{number_room, line_room, numeral as Line·numeral, behind as Line·behind, numerals as Line·numerals, line as Line·line};

// Room for eight letters and six numbers of at most twenty digits, each with the byte behind it.
pub const LINE: usize = 134;

const DIGITS: usize = 20;

// The decimal digits of a number at a position, at most `most` of them; returns the position after them.
fn numeral(out: &mut [u8; LINE], at: usize, n: u64, most: usize) -> usize
    requires { at + most ≤ line_room }
    ensures within { result ≤ at + most }
    ensures value { result ≡ at + length (Line·numeral most n) }
    ensures out_after { out.new ≡ sets out.old at (Line·numeral most n) }
{
    if most == 0 {
        return at;
    }
    if n < 10 {
        out[at] = b'0' + n as u8;
        return at + 1;
    }
    let next = numeral(out, at, n / 10, most - 1);
    out[next] = b'0' + (n % 10) as u8;
    next + 1
}

// What stands behind the i-th number.
fn behind(numbers: &[u64], i: usize) -> u8
    requires { i < length numbers.now }
    ensures { result ≡ Line·behind (drop (i + 1) numbers.now) }
{
    if i + 1 < numbers.len() { b' ' } else { b'\n' }
}

// The numbers from the i-th on, at a position; returns the position after them.
fn numerals(out: &mut [u8; LINE], at: usize, numbers: &[u64], i: usize) -> usize
    requires { at + number_room * length (drop i numbers.now) ≤ line_room }
    ensures value { result ≡ at + length (Line·numerals (drop i numbers.now)) }
    ensures out_after { out.new ≡ sets out.old at (Line·numerals (drop i numbers.now)) }
{
    if numbers.len() <= i {
        return at;
    }
    let next = numeral(out, at, numbers[i], DIGITS);
    out[next] = behind(numbers, i);
    numerals(out, next + 1, numbers, i + 1)
}

// The letters from the i-th on, at that position.
fn spell(out: &mut [u8; LINE], letters: &[u8], i: usize)
    requires { length letters.now ≤ line_room }
    ensures { out.new ≡ sets out.old i (drop i letters.now) }
{
    if letters.len() <= i {
        return;
    }
    out[i] = letters[i];
    spell(out, letters, i + 1);
}

// Writes a line to the front and returns its length.
pub fn line(out: &mut [u8; LINE], letters: &[u8], numbers: &[u64]) -> usize
    requires { length letters.now + number_room * length numbers.now ≤ line_room }
    ensures within { result ≤ line_room }
    ensures value { result ≡ length (Line·line letters.now numbers.now) }
    ensures out_after { out.new ≡ sets out.old 0 (Line·line letters.now numbers.now) }
{
    spell(out, letters, 0);
    numerals(out, letters.len(), numbers, 0)
}
