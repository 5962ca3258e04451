// Who stands before whom on a list.

ghost use Rattle.std.specs.Prelude.{◌≡◌, ◌<◌};
ghost use Rattle.rows_laws.specs.All.{Room, row_count, outranks, sooner_at};

use crate::cells::{priority, read, time};
use crate::{Row, SERIAL};

// By priority, high first, then serial, low first.
pub fn outranks(w: &[u32], x: Row, y: Row) -> bool
    requires { Room w.now }
    ensures { result ≡ outranks w.now x y }
{
    let a = priority(w, x);
    let b = priority(w, y);
    if b < a {
        return true;
    }
    if a < b {
        return false;
    }
    read(w, SERIAL, x) < read(w, SERIAL, y)
}

// On the FEL by time first, row x having this time.
pub fn sooner_at(w: &[u32], due: u64, x: Row, y: Row) -> bool
    requires { Room w.now }
    ensures { result ≡ sooner_at w.now due x y }
{
    let other = time(w, y);
    if due < other {
        return true;
    }
    if other < due {
        return false;
    }
    outranks(w, x, y)
}
