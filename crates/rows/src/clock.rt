// A clock move: all of one time go from the FEL to REL.

ghost use Rattle.std.specs.Prelude.{◌≡◌, ◌+◌, ◌<◌, ◌≤◌};
ghost use Rattle.rows_laws.specs.All.{Room, row_count, serial_end, IsRow, is_due, arrive_row, arrive_first, arrived, arrive};

use crate::cells::{set_returning, time, write};
use crate::future::cancel;
use crate::lists::{first, put};
use crate::{Chain, ROWS, Row, SERIAL};

// The first of the FEL has this time.
pub fn is_due(w: &[u32], due: u64) -> bool
    requires { Room w.now }
    ensures { result ≡ is_due w.now due }
{
    match first(w, Chain::FEL) {
        Some(k) => time(w, k) == due,
        None => false,
    }
}

fn arrive_row(w: &mut [u32], serial: u32, k: Row)
    requires { Room w.old }
    ensures { w.new ≡ arrive_row w.old serial k }
{
    cancel(w, k);
    set_returning(w, k, 0);
    write(w, SERIAL, k, serial);
    put(w, Chain::REL, k);
}

// The first of the FEL goes to REL with this serial, not returning.
pub fn arrive_first(w: &mut [u32], serial: u32)
    requires { Room w.old }
    ensures { w.new ≡ arrive_first w.old serial }
{
    if let Some(k) = first(w, Chain::FEL) {
        arrive_row(w, serial, k);
    }
}

// All of the FEL's first that have this time go to REL with fresh serials; the answer is the last serial given.
pub fn arrive(w: &mut [u32], due: u64, serial: u32) -> u32
    requires room { Room w.old }
    requires serial_lt_serial_end { serial < serial_end }
    ensures { arrived w.new result ≡ arrive row_count due w.old serial }
{
    let mut s = serial;
    for _ in 0..ROWS {
        if !is_due(w, due) {
            return s;
        }
        s += 1;
        arrive_first(w, s);
    }
    s
}
