// The first bytes of a file.
ghost use Rattle.std.specs.Prelude.{◌≡◌, ◌≤◌, Some};
ghost use Rattle.machine.specs.All.{ℕ, length, take};

use std::io::Read;
use std::rt::Files;
use std::{fs, io};

// A line on standard error: what failed, and why.
pub fn fail(rt: &impl Eprint, what: &str, error: io::Error) {
    let _ = eprintln!(rt; "{what}: {error}");
}

// One read: how many bytes, none of them at the file's end; `None` where it fails, which standard error says.
fn read_some(rt: &impl Eprint, file: &mut impl Read, name: &str, rest: &mut [u8]) -> Option<usize>
    ensures { (n : ℕ) → result ≡ Some n → n ≤ length rest.old }
{
    match file.read(rest) {
        Err(error) => {
            fail(rt, name, error);
            None
        }
        Ok(n) => Some(n),
    }
}

// Reads until the buffer is full or the file ends.
// kept: a `while`, since a read gives as many bytes as it likes.
fn read_all(rt: &impl Eprint, file: &mut impl Read, name: &str, buffer: &mut [u8]) -> Option<usize>
    ensures { (n : ℕ) → result ≡ Some n → (n ≤ length buffer.new) × (n ≡ length (take n buffer.new)) }
{
    let mut done = 0;
    while done < buffer.len() {
        let n = read_some(rt, file, name, &mut buffer[done..])?;
        if n == 0 {
            break;
        }
        done += n;
    }
    Some(done)
}

// Reads the first bytes of a file, as many as the buffer has room for.
pub fn read_file<R: Files + Eprint>(rt: &R, name: &str, buffer: &mut [u8]) -> Option<usize>
    ensures { (n : ℕ) → result ≡ Some n → (n ≤ length buffer.new) × (n ≡ length (take n buffer.new)) }
{
    match fs::open(rt, name) {
        Err(error) => {
            fail(rt, name, error);
            None
        }
        Ok(mut file) => read_all(rt, &mut file, name, buffer),
    }
}
