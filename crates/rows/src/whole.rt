// A whole list goes to REL, before all who are there. Its rows are found by their places, in parts of the buffer from the end on; its chain
// is then joined to that of REL.

ghost use Rattle.std.specs.Prelude.{◌≡◌, ◌-◌, ◌<◌, ◌≤◌};
ghost use Rattle.rows_laws.specs.All.{Room, row_count, list_count, part_rows, part_count, place, load, ready_place, ready_standing, one_if, ready_row, ready_rows, ready_count, ready_parts, join_at, join_ready, wake_whole};

use crate::cells::{get, set, store};
use crate::lists::{end_at, first_number};
use crate::make::empty_list;
use crate::{Chain, FIELD_WIDTH, PART_ROWS, PARTS, PLACES, REL, STANDING};

const STANDINGS: u32 = STANDING * FIELD_WIDTH;

// Where one is whose place is q, if list p goes to REL.
fn ready_place(p: Chain, q: u32) -> u32
    ensures { result ≡ ready_place p q }
{
    if q == p.number() { REL } else { q }
}

// How it stands then.
fn ready_standing(p: Chain, q: u32, standing: u32) -> u32
    ensures { result ≡ ready_standing p q standing }
{
    if q == p.number() {
        standing / 2 * 2 + 1
    } else {
        standing
    }
}

// Row k, if it is on list p; the answer is whether it was, as 1 or 0. It is stored in any case, which lets the compiler take several rows
// at once; for that k is a number here, with no test that it is a row.
fn ready_row(w: &mut [u32], p: Chain, k: u32) -> u32
    requires room { Room w.old }
    requires bound { k < row_count }
    ensures rows { w.new ≡ ready_row w.old p k }
    ensures count { result ≡ one_if p (load w.old (place k)) }
    ensures small { result ≤ 1 }
{
    let q = get(w, PLACES + k);
    let standing = get(w, STANDINGS + k);
    set(w, PLACES + k, ready_place(p, q));
    set(w, STANDINGS + k, ready_standing(p, q, standing));
    u32::from(q == p.number())
}

// The rows of a part from a row on; the answer is how many of them were on list p.
fn ready_rows(w: &mut [u32], p: Chain, from: u32) -> u32
    requires room { Room w.old }
    requires from_bound { from ≤ row_count - part_rows }
    ensures rows { w.new ≡ ready_rows part_rows w.old p from }
    ensures count { result ≡ ready_count part_rows w.old p from }
{
    let mut n: u32 = 0;
    for i in 0..PART_ROWS {
        n += ready_row(w, p, from + i);
    }
    n
}

// The parts, the last first, until n rows are found.
fn ready_parts(w: &mut [u32], p: Chain, n: u64)
    requires { Room w.old }
    ensures { w.new ≡ ready_parts part_count w.old p n }
{
    let mut left = n;
    for c in (0..PARTS).rev() {
        if left == 0 {
            return;
        }
        let found = ready_rows(w, p, PART_ROWS * c);
        left = left.saturating_sub(found as u64);
    }
}

// List p, whose last cell is t, stands before REL, whose first was r.
fn join_at(w: &mut [u32], p: Chain, t: u32, r: u32)
    requires { Room w.old }
    ensures { w.new ≡ join_at w.old p t r }
{
    let k = first_number(w, p);
    store(w, t, r);
    set(w, Chain::REL.head(), k);
    end_at(w, Chain::REL, r, t);
    empty_list(w, p);
}

fn join_ready(w: &mut [u32], p: Chain)
    requires { Room w.old }
    ensures { w.new ≡ join_ready w.old p }
{
    let t = get(w, p.tail());
    let r = first_number(w, Chain::REL);
    join_at(w, p, t, r);
}

// List p, which has n.
pub fn wake_whole(w: &mut [u32], p: Chain, n: u64)
    requires { Room w.old }
    ensures { w.new ≡ wake_whole w.old p n }
{
    ready_parts(w, p, n);
    join_ready(w, p);
}
