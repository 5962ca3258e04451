// Rows that come to life and end, and the buffer at the start of a run.

ghost use Rattle.std.specs.Prelude.{◌≡◌, ◌<◌, ◌≤◌};
ghost use Rattle.rows_laws.specs.All.{Room, row_count, list_count, priority_end, IsRow, free, first, take_first, clear_parameters, copy_parameters, describe, newborn_at, copy_at, free_row, empty_list, empty_lists, loose_rows, free_rows, initial};

use crate::cells::{read, set, set_time, write};
use crate::lists::{insert_at, take_first};
use crate::{
    CHAINS, Chain, FAMILY, FEL_SIZE, NEXT, NOWHERE, NUMBER, PARAMETER_1, PARAMETER_2, PARAMETER_3,
    PARAMETER_4, PLACES, ROWS, Row, SERIAL, STANDING,
};

// A free row, which is then on no list; none if all live.
pub fn make_row(w: &mut [u32]) -> Option<Row>
    requires { Room w.old }
    ensures row { IsRow (first w.old free) result }
    ensures rows { w.new ≡ take_first w.old free }
{
    take_first(w, Chain::FREE)
}

// Row k, which is on no list, is free.
pub fn free_row(w: &mut [u32], k: Row)
    requires { Room w.old }
    ensures { w.new ≡ free_row w.old k }
{
    insert_at(w, Chain::FREE, Chain::FREE.head(), k);
}

fn clear_parameters(w: &mut [u32], k: Row)
    requires { Room w.old }
    ensures { w.new ≡ clear_parameters w.old k }
{
    write(w, PARAMETER_1, k, 0);
    write(w, PARAMETER_2, k, 0);
    write(w, PARAMETER_3, k, 0);
    write(w, PARAMETER_4, k, 0);
}

fn copy_parameters(w: &mut [u32], j: Row, k: Row)
    requires { Room w.old }
    ensures { w.new ≡ copy_parameters w.old j k }
{
    let a = read(w, PARAMETER_1, j);
    let b = read(w, PARAMETER_2, j);
    let c = read(w, PARAMETER_3, j);
    let d = read(w, PARAMETER_4, j);
    write(w, PARAMETER_1, k, a);
    write(w, PARAMETER_2, k, b);
    write(w, PARAMETER_3, k, c);
    write(w, PARAMETER_4, k, d);
}

fn describe(w: &mut [u32], k: Row, number: u32, priority: u32, block: u32, family: u32)
    requires room { Room w.old }
    requires priority_lt_priority_end { priority < priority_end }
    ensures { w.new ≡ describe w.old k number priority block family }
{
    write(w, NUMBER, k, number);
    write(w, STANDING, k, priority * 2);
    write(w, NEXT, k, block);
    write(w, SERIAL, k, 0);
    set_time(w, k, 0);
    write(w, FAMILY, k, family);
}

// Row k as a new transaction at a block, which founds a family, with no serial yet.
pub fn newborn(w: &mut [u32], k: Row, number: u32, priority: u32, block: u32)
    requires room { Room w.old }
    requires priority_lt_priority_end { priority < priority_end }
    ensures { w.new ≡ newborn_at w.old k number priority block }
{
    describe(w, k, number, priority, block, number);
    clear_parameters(w, k);
}

// Row k as a copy of row j at a block: same priority, parameters and family, a number of its own, not returning, no serial yet.
pub fn copy(w: &mut [u32], j: Row, k: Row, number: u32, block: u32)
    requires { Room w.old }
    ensures { w.new ≡ copy_at w.old j k number block }
{
    let standing = read(w, STANDING, j);
    let family = read(w, FAMILY, j);
    describe(w, k, number, standing / 2, block, family);
    copy_parameters(w, j, k);
}

pub fn empty_list(w: &mut [u32], p: Chain)
    requires { Room w.old }
    ensures { w.new ≡ empty_list w.old p }
{
    set(w, p.head(), ROWS);
    set(w, p.tail(), p.head());
}

fn empty_lists(w: &mut [u32])
    requires { Room w.old }
    ensures { w.new ≡ empty_lists list_count w.old }
{
    for p in 0..CHAINS {
        if let Some(p) = Chain::of(p) {
            empty_list(w, p);
        }
    }
}

fn loose_rows(w: &mut [u32])
    requires { Room w.old }
    ensures { w.new ≡ loose_rows row_count w.old }
{
    for k in 0..ROWS {
        set(w, PLACES + k, NOWHERE);
    }
}

fn free_rows(w: &mut [u32])
    requires { Room w.old }
    ensures { w.new ≡ free_rows row_count w.old }
{
    for k in 0..ROWS {
        if let Some(k) = Row::of(k) {
            free_row(w, k);
        }
    }
}

// The start of a run: every list is empty and every row free, whatever the buffer held.
pub fn initialise(w: &mut [u32])
    requires { Room w.old }
    ensures { w.new ≡ initial w.old }
{
    empty_lists(w);
    set(w, FEL_SIZE, 0);
    loose_rows(w);
    free_rows(w);
}
