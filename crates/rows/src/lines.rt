// Lines: how a waiter comes onto a QL or WEL. Under edition 1 in order; under edition 2 (document 02, item 12) "a returning transaction
// goes to the very front" and "others are placed from the back, behind the first member met of equal or higher priority".

ghost use Rattle.std.specs.Prelude.{◌≡◌, ◌<◌, ◌≤◌};
ghost use Rattle.rows_laws.specs.All.{Room, row_count, list_count, at_least, found_at, last_cell, last_meets, back_before, back_spot, second_spot, line_up};

use crate::cells::{get, priority, read, row_at};
use crate::lists::{insert_at, put};
use crate::{Chain, LINKS, ROWS, Row, STANDING};

// Has row j at least the priority of row k?
fn at_least(w: &[u32], k: Row, j: Row) -> bool
    requires { Room w.now }
    ensures { result ≡ at_least w.now k j }
{
    priority(w, k) <= priority(w, j)
}

// The cell behind row j, if it has; else as found.
fn found_at(w: &[u32], k: Row, j: Row, found: u32) -> u32
    requires { Room w.now }
    ensures { result ≡ found_at w.now k j found }
{
    if at_least(w, k, j) {
        return j.link();
    }
    found
}

// The cell behind the last row from a cell on that has; the cell itself where none has. Links lead forward only.
fn last_cell(w: &[u32], k: Row, from: u32) -> u32
    requires { Room w.now }
    ensures { result ≡ last_cell row_count w.now k from from }
{
    let mut c = from;
    let mut found = from;
    for _ in 0..ROWS {
        let Some(j) = row_at(w, c) else {
            return found;
        };
        found = found_at(w, k, j, found);
        c = j.link();
    }
    found
}

// Has the row whose link cell t is?
fn last_meets(w: &[u32], k: Row, t: u32) -> bool
    requires { Room w.now }
    ensures { result ≡ last_meets w.now k t }
{
    if t < LINKS {
        return false;
    }
    match Row::of(t - LINKS) {
        Some(j) => at_least(w, k, j),
        None => false,
    }
}

fn back_before(w: &[u32], p: Chain, k: Row, t: u32) -> u32
    requires { Room w.now }
    ensures { result ≡ back_before w.now p k t }
{
    if last_meets(w, k, t) {
        return t;
    }
    last_cell(w, k, p.head())
}

// The cell behind the first row met from the back of list p that has.
fn back_spot(w: &[u32], p: Chain, k: Row) -> u32
    requires { Room w.now }
    ensures { result ≡ back_spot w.now p k }
{
    let t = get(w, p.tail());
    back_before(w, p, k, t)
}

fn second_spot(w: &[u32], p: Chain, k: Row) -> u32
    requires { Room w.now }
    ensures { result ≡ second_spot w.now p k }
{
    if read(w, STANDING, k) % 2 == 1 {
        return p.head();
    }
    back_spot(w, p, k)
}

// Row k, which is on no list, comes onto list p.
pub fn line_up(w: &mut [u32], p: Chain, k: Row, edition: u32)
    requires { Room w.old }
    ensures { w.new ≡ line_up edition w.old p k }
{
    if edition == 1 {
        put(w, p, k);
        return;
    }
    let c = second_spot(w, p, k);
    insert_at(w, p, c, k);
}
