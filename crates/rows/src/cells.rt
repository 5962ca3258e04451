// Single numbers of the buffer, and the fields of a row.

ghost use Rattle.std.specs.Prelude.{◌≡◌, ◌+◌, ◌*◌, ◌<◌, ◌≤◌};
ghost use Rattle.machine.specs.All.{work_numbers};
ghost use Rattle.rows_laws.specs.All.{Room, row_count, field_count, IsRow, load, store, read, write, priority_of, set_returning, time_of, set_time};

use crate::{FIELD_WIDTH, Row, STANDING, TIME, TIME_HIGH, WORD_END, WORK_NUMBERS};

pub fn load(w: &[u32], i: u32) -> u32
    ensures { result ≡ load w.now i }
{
    w.get(i as usize).copied().unwrap_or(0)
}

// The same of a number of the layout, with no test.
pub fn get(w: &[u32], i: u32) -> u32
    requires room { Room w.now }
    requires i_lt_work_numbers { i < work_numbers }
    ensures { result ≡ load w.now i }
{
    w[i as usize]
}

pub fn store(w: &mut [u32], i: u32, x: u32)
    requires { Room w.old }
    ensures { w.new ≡ store w.old i x }
{
    if i < WORK_NUMBERS {
        w[i as usize] = x;
    }
}

// The same of a number of the layout, with no test.
pub fn set(w: &mut [u32], i: u32, x: u32)
    requires room { Room w.old }
    requires i_lt_work_numbers { i < work_numbers }
    ensures { w.new ≡ store w.old i x }
{
    w[i as usize] = x;
}

// The row that a cell holds.
pub fn row_at(w: &[u32], c: u32) -> Option<Row>
    ensures { IsRow (load w.now c) result }
{
    Row::of(load(w, c))
}

// Field f of row k.
pub fn read(w: &[u32], f: u32, k: Row) -> u32
    requires room { Room w.now }
    requires f_lt_field_count { f < field_count }
    ensures { result ≡ read w.now f k }
{
    get(w, f * FIELD_WIDTH + k.number())
}

pub fn write(w: &mut [u32], f: u32, k: Row, x: u32)
    requires room { Room w.old }
    requires f_lt_field_count { f < field_count }
    ensures { w.new ≡ write w.old f k x }
{
    set(w, f * FIELD_WIDTH + k.number(), x);
}

pub fn priority(w: &[u32], k: Row) -> u32
    requires { Room w.now }
    ensures { result ≡ priority_of w.now k }
{
    read(w, STANDING, k) / 2
}

// Sets or clears the returning mark: 1 or 0.
pub fn set_returning(w: &mut [u32], k: Row, mark: u32)
    requires room { Room w.old }
    requires mark_bound { mark < 2 }
    ensures { w.new ≡ set_returning w.old k mark }
{
    let standing = read(w, STANDING, k);
    if standing % 2 == mark {
        return;
    }
    write(w, STANDING, k, standing / 2 * 2 + mark);
}

// The move time, in two fields.
pub fn time(w: &[u32], k: Row) -> u64
    requires { Room w.now }
    ensures { result ≡ time_of w.now k }
{
    let low = read(w, TIME, k) as u64;
    let high = read(w, TIME_HIGH, k) as u64;
    high * WORD_END + low
}

pub fn set_time(w: &mut [u32], k: Row, time: u64)
    requires { Room w.old }
    ensures { w.new ≡ set_time w.old k time }
{
    write(w, TIME, k, (time % WORD_END) as u32);
    write(w, TIME_HIGH, k, (time / WORD_END) as u32);
}
