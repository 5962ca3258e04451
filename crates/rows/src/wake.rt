// Moves to REL from the lists on which one waits.

ghost use Rattle.std.specs.Prelude.{◌≡◌, ◌<◌, ◌≤◌};
ghost use Rattle.rows_laws.specs.All.{Room, row_count, list_count, wake_row, wake_at, wake_first, after, pass_rows, pass_cell};

use crate::cells::{row_at, set_returning};
use crate::lists::{put, remove_at};
use crate::{Chain, Row};

fn wake_row(w: &mut [u32], p: Chain, c: u32, k: Row)
    requires { Room w.old }
    ensures { w.new ≡ wake_row w.old p c k }
{
    remove_at(w, p, c);
    set_returning(w, k, 1);
    put(w, Chain::REL, k);
}

// The row of cell c goes from list p to REL: it keeps its serial and is returning.
pub fn wake_at(w: &mut [u32], p: Chain, c: u32)
    requires { Room w.old }
    ensures { w.new ≡ wake_at w.old p c }
{
    if let Some(k) = row_at(w, c) {
        wake_row(w, p, c, k);
    }
}

// The first row of list p goes to REL, if there is one.
pub fn wake_first(w: &mut [u32], p: Chain)
    requires { Room w.old }
    ensures { w.new ≡ wake_first w.old p }
{
    wake_at(w, p, p.head());
}

// The cell behind the row of cell c.
pub fn after(w: &[u32], c: u32) -> u32
    ensures { result ≡ after w.now c }
{
    match row_at(w, c) {
        Some(k) => k.link(),
        None => c,
    }
}

// One step along list p: the row of cell c goes to REL and the cell stays, or the row stays and the next cell follows. A loop
// of at most 1,024 steps from the head wakes all that pass a test.
pub fn pass(w: &mut [u32], p: Chain, c: u32, moves: bool) -> u32
    requires { Room w.old }
    ensures cell { result ≡ pass_cell moves w.old c }
    ensures rows { w.new ≡ pass_rows moves w.old p c }
{
    if moves {
        wake_at(w, p, c);
        return c;
    }
    after(w, c)
}
