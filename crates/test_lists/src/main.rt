// Runs the lists on a buffer that is full of stale numbers and writes the transactions' numbers in the order in which they are
// taken; then a number past the 16,384th, which must be as it was.
#![tactic(auto)]

ghost use Rattle.std.specs.Prelude.{◌<◌};
ghost use Rattle.rows_laws.specs.All.{Room, priority_end};

use rows::{Chain, NUMBER, ROWS, Row, SERIAL, Server, TIME};
use std::io;

// More than the layout needs.
const LENT: usize = 16_400;

// The QL of the first server.
fn ql() -> Chain {
    Chain::queue(Server::of(0))
}

// A new transaction in a row that is on no list; none if all live.
fn make(w: &mut [u32], number: u32, priority: u32, time: u32) -> Option<Row>
    requires room { Room w.old }
    requires priority_lt_priority_end { priority < priority_end }
{
    let k = rows::make::make_row(w)?;
    rows::make::newborn(w, k, number, priority, 1);
    rows::cells::write(w, SERIAL, k, number);
    rows::cells::write(w, TIME, k, time);
    Some(k)
}

// On list p.
fn enter(w: &mut [u32], p: Chain, number: u32, priority: u32)
    requires room { Room w.old }
    requires priority_lt_priority_end { priority < priority_end }
{
    if let Some(k) = make(w, number, priority, 0) {
        rows::lists::put(w, p, k);
    }
}

// On the FEL.
fn enter_later(w: &mut [u32], number: u32, priority: u32, time: u32)
    requires room { Room w.old }
    requires priority_lt_priority_end { priority < priority_end }
{
    if let Some(k) = make(w, number, priority, time) {
        rows::future::schedule(w, k);
    }
}

// Row k, which is on no list, ends; the answer is its number.
fn end(w: &mut [u32], k: Row) -> u32
    requires { Room w.old }
{
    let number = rows::cells::read(w, NUMBER, k);
    rows::make::free_row(w, k);
    number
}

// The number of the first of list p, which ends, if there is one.
fn leave(w: &mut [u32], p: Chain) -> Option<u32>
    requires { Room w.old }
{
    let k = rows::lists::take_first(w, p)?;
    Some(end(w, k))
}

// Of the FEL.
fn leave_later(w: &mut [u32]) -> Option<u32>
    requires { Room w.old }
{
    let k = rows::lists::first(w, Chain::FEL)?;
    rows::future::cancel(w, k);
    Some(end(w, k))
}

fn show(rt: &impl Print, number: u32) -> io::Result<()> {
    println!(rt; "{number}")
}

// Writes all of list p, first to last.
fn drain(rt: &impl Print, w: &mut [u32], p: Chain) -> io::Result<()>
    requires { Room w.old }
{
    for _ in 0..ROWS {
        let Some(number) = leave(w, p) else {
            return Ok(());
        };
        show(rt, number)?;
    }
    Ok(())
}

// Writes all of the FEL.
fn drain_later(rt: &impl Print, w: &mut [u32]) -> io::Result<()>
    requires { Room w.old }
{
    for _ in 0..ROWS {
        let Some(number) = leave_later(w) else {
            return Ok(());
        };
        show(rt, number)?;
    }
    Ok(())
}

// REL by priority, then serial: 5 2 4 1 3.
fn ready(rt: &impl Print, w: &mut [u32]) -> io::Result<()>
    requires { Room w.old }
{
    enter(w, Chain::REL, 1, 0);
    enter(w, Chain::REL, 2, 5);
    enter(w, Chain::REL, 3, 0);
    enter(w, Chain::REL, 4, 5);
    enter(w, Chain::REL, 5, 9);
    drain(rt, w, Chain::REL)
}

// The FEL by time first; those of time 10 arrive on REL: 8 7, then 9 6 are left.
fn future(w: &mut [u32])
    requires { Room w.old }
{
    enter_later(w, 6, 9, 30);
    enter_later(w, 7, 1, 10);
    enter_later(w, 8, 3, 10);
    enter_later(w, 9, 0, 20);
    rows::clock::arrive(w, 10, 9);
}

// A queue of three whose first is woken: 2, then 1 3.
fn queue(rt: &impl Print, w: &mut [u32]) -> io::Result<()>
    requires { Room w.old }
{
    enter(w, ql(), 1, 0);
    enter(w, ql(), 2, 1);
    enter(w, ql(), 3, 0);
    rows::wake::wake_first(w, ql());
    drain(rt, w, Chain::REL)?;
    drain(rt, w, ql())
}

// The second of a queue leaves, wherever it stands: 1 3 are left.
fn middle(rt: &impl Print, w: &mut [u32]) -> io::Result<()>
    requires { Room w.old }
{
    enter(w, ql(), 1, 0);
    enter(w, ql(), 2, 0);
    enter(w, ql(), 3, 0);
    let second = rows::wake::after(w, ql().head());
    let Some(k) = rows::cells::row_at(w, second) else {
        return Ok(());
    };
    rows::lists::remove(w, ql(), k.number());
    rows::make::free_row(w, k);
    drain(rt, w, ql())
}

fn exercise(rt: &impl Print, w: &mut [u32]) -> io::Result<()>
    requires { Room w.old }
{
    rows::make::initialise(w);
    ready(rt, w)?;
    future(w);
    drain(rt, w, Chain::REL)?;
    drain_later(rt, w)?;
    queue(rt, w)?;
    middle(rt, w)
}

fn main(rt: HostRuntime) -> io::Result<()> {
    let mut w: [u32; LENT] = [77; LENT];
    exercise(&rt, &mut w)?;
    show(&rt, w[LENT - 1])
}
