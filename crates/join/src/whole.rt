// The joined model, part by part, from two headers and their tables.
ghost use Rattle.std.specs.Prelude.{◌≡◌, ◌+◌, ◌≤◌};
ghost use Rattle.machine.specs.All.{max_counter};
ghost use Rattle.codec.specs.Writing.{written, put};
ghost use Rattle.join_laws.specs.Rows.{puts};
ghost use Rattle.join_laws.specs.Whole.{first_shift, second_shift, may_join_tables, server_rows, thing_rows, all_blocks_lem, program_rows, joined_rows};

use super::nested::values;
use super::part::Part;
use super::rows::blocks;
use codec::write_number;
use constants::Model;
use join_laws::Shift;

// The first part keeps its numbers.
fn first_shift(first: &Part) -> Shift
    ensures { result ≡ first_shift first.now.model }
{
    let a = first.model;
    Shift {
        own: a.facilities as u32,
        facilities: 0,
        storages: 0,
        queues: 0,
        values: 0,
        lists: 0,
        blocks: 0,
    }
}

// The second is numbered on after it.
fn second_shift(first: &Part, second: &Part) -> Shift
    ensures { result ≡ second_shift first.now.model second.now.model }
{
    let a = first.model;
    Shift {
        own: second.model.facilities as u32,
        facilities: a.facilities as u32,
        storages: a.storages as u32,
        queues: a.queues as u32,
        values: a.values as u32,
        lists: a.lists as u32,
        blocks: a.blocks as u32,
    }
}

// One edition, and each joined count and the counter within its limit?
pub fn may_join(first: &Part, second: &Part) -> bool
    ensures { result ≡ may_join_tables first.now.tables.now first.now.model second.now.tables.now second.now.model }
{
    let a = first.model;
    let b = second.model;
    let edition1 = first.edition();
    let edition2 = second.edition();
    if edition1 != edition2 {
        return false;
    }
    if Model::MAX_FACILITIES < a.facilities + b.facilities {
        return false;
    }
    if Model::MAX_STORAGES < a.storages + b.storages {
        return false;
    }
    if Model::MAX_QUEUES < a.queues + b.queues {
        return false;
    }
    if Model::MAX_VALUES < a.values + b.values {
        return false;
    }
    if Model::MAX_LISTS < a.lists + b.lists {
        return false;
    }
    if Model::MAX_COUNTER < a.counter + b.counter {
        return false;
    }
    if Model::MAX_BLOCKS < a.blocks + b.blocks {
        return false;
    }
    true
}

// A count of both parts.
fn both(out: &mut [u8], at: usize, x: usize, y: usize) -> usize
    requires { (x ≤ max_counter) × (y ≤ max_counter) }
    ensures { written result out.new ≡ put (x + y) (written at out.old) }
{
    write_number(out, at, (x + y) as u64)
}

// Edition, facilities, storages and each capacity.
fn servers(first: &Part, second: &Part, out: &mut [u8]) -> usize
    ensures { written result out.new
        ≡ puts (server_rows first.now.tables.now first.now.model second.now.tables.now second.now.model) (written 0 out.old) }
{
    let a = first.model;
    let b = second.model;
    let p = write_number(out, 0, u64::from(first.edition()));
    let q = both(out, p, a.facilities, b.facilities);
    let r = both(out, q, a.storages, b.storages);
    let s = first.capacities(out, r);
    second.capacities(out, s)
}

// Queues, and values with their sums.
fn things(first: &Part, second: &Part, out: &mut [u8], to: usize) -> usize
    ensures { written result out.new
        ≡ puts (thing_rows first.now.tables.now first.now.model second.now.tables.now second.now.model) (written to out.old) }
{
    let a = first.model;
    let b = second.model;
    let p = both(out, to, a.queues, b.queues);
    let q = both(out, p, a.values, b.values);
    let tables1 = first.tables;
    let r = values(tables1, a.values, first_shift(first), out, q);
    let tables2 = second.tables;
    values(tables2, b.values, second_shift(first, second), out, r)
}

// The blocks of both parts.
fn all_blocks(first: &Part, second: &Part, out: &mut [u8], to: usize) -> usize
    ensures { written result out.new
        ≡ puts (all_blocks_lem first.now.tables.now first.now.model second.now.tables.now second.now.model) (written to out.old) }
{
    let tables1 = first.tables;
    let p = blocks(tables1, first.model.blocks, first_shift(first), out, to);
    let tables2 = second.tables;
    blocks(
        tables2,
        second.model.blocks,
        second_shift(first, second),
        out,
        p,
    )
}

// Lists, counter, and blocks with their operands.
fn program(first: &Part, second: &Part, out: &mut [u8], to: usize) -> usize
    ensures { written result out.new
        ≡ puts (program_rows first.now.tables.now first.now.model second.now.tables.now second.now.model) (written to out.old) }
{
    let a = first.model;
    let b = second.model;
    let p = both(out, to, a.lists, b.lists);
    let q = both(out, p, a.counter, b.counter);
    let r = both(out, q, a.blocks, b.blocks);
    all_blocks(first, second, out, r)
}

// Writes the joined model from the front on; how many bytes it takes.
pub fn model(first: &Part, second: &Part, out: &mut [u8]) -> usize
    ensures { written result out.new
        ≡ puts (joined_rows first.now.tables.now first.now.model second.now.tables.now second.now.model) (written 0 out.old) }
{
    let p = servers(first, second, out);
    let q = things(first, second, out, p);
    program(first, second, out, q)
}
