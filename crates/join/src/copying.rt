// Bytes as they are.
ghost use Rattle.std.specs.Prelude.{◌≡◌, ◌+◌, ◌≤◌, ◌++◌};
ghost use Rattle.machine.specs.All.{leb, length, drop};

// Is there room for both?
pub fn room_for(first: &[u8], second: &[u8], room: usize) -> bool
    ensures { result ≡ leb (length (first.now ++ second.now)) room }
{
    first.len() + second.len() <= room
}

// Copies byte by byte. Kept in place of the library's `copy_from_slice`, which needs `memmove` from outside of the archive for C.
pub fn copy(from: &[u8], out: &mut [u8])
    requires { length out.old ≡ length from.now }
    ensures { out.new ≡ from.now }
{
    for i in 0..from.len() {
        out[i] = from[i];
    }
}

// Lays them end to end.
pub fn end_to_end(first: &[u8], second: &[u8], out: &mut [u8])
    requires { length (first.now ++ second.now) ≤ length out.old }
    ensures { out.new ≡ first.now ++ second.now ++ drop (length (first.now ++ second.now)) out.old }
{
    let end = first.len() + second.len();
    copy(first, &mut out[..first.len()]);
    copy(second, &mut out[first.len()..end]);
}
