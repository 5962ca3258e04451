// Validation and decoding of a model and its tape (document 01, questions 1 to 10 in their order).
// What a run needs of them is left in two arrays that the caller lends (crate `layout`).

#![tactic(auto)]

ghost use Rattle.std.specs.Prelude.{◌≡◌, ◌+◌, ◌*◌, ◌≤◌, ◌<◌};
ghost use Rattle.machine.specs.All.{ℕ, replicate, sets, in_force, field, times, max_facilities, max_capacity, max_lists, max_time, list_field, model_fields, model_of_lem, tape_of, beginning, validate as answer};
ghost use Rattle.codec.specs.Answers.{parsed_of};
ghost use Rattle.parse_values.specs.Keeps.{cursor_of, number_shape};
ghost use Rattle.parse_values.specs.Filled.{Filled};
ghost use Rattle.parse_values.specs.Shapes.{Within};
ghost use Rattle.layout.specs.Layout as Layout;
ghost use Rattle.decode.specs.Stages.{empty_tables, Capacity, Stage, servers_shape, servers_field, things_shape, things_field, program_shape, program_field, no_model, no_place};
ghost use Rattle.program.specs.Shapes.{capacities_of};
ghost use Rattle.decode.specs.Models.{model_shape, Models};
ghost use Rattle.decode.specs.Lists.{cursor_at, tape_field, Skips, Listed, Lists, empty_lists};
ghost use Rattle.decode.specs.Decodes.{Decodes, refusal_of};

use codec::read_text;
use constants::{Model, Refusal, Text};
use layout::{CAPACITIES, EDITION, LIST_CELLS, LIST_COUNTS, TABLES};
use parse_values::{Place, number, values};
use program::{blocks, groups_whole, single, targets_move, well_placed};
use watch::watch;

// ---- Facilities and storages

// Nothing but the edition.
#[tactic(auto, unfolding(crate::specs::Stages::empty_tables))]
fn clear(tables: &mut [u32; TABLES], edition: u32)
    ensures { tables.new ≡ empty_tables edition }
{
    *tables = [0u32; TABLES];
    tables[EDITION] = edition;
}

// A facility is a server of capacity 1.
fn facilities(tables: &mut [u32; TABLES], count: usize)
    requires { count ≤ max_facilities }
    ensures { tables.new ≡ sets tables.old Layout.capacities (replicate count 1) }
{
    tables[CAPACITIES..CAPACITIES + count].fill(1);
}

// The capacities of the storages, behind those of the facilities.
fn capacities(s: &[u8], tables: &mut [u32; TABLES], m: Model, p: Place) -> Result<Place, Refusal>
    requires { Within m }
    ensures { Filled (number_shape 1 max_capacity 1) Capacity 1 (Layout.capacities + m.facilities) p tables.old tables.new result
        (times m.storages (field s.now 3 1 max_capacity) (cursor_of p)) }
{
    let mut q = p;
    for k in 0..m.storages {
        let to = CAPACITIES + m.facilities + k;
        q = single(s, tables, to, q, 1, Model::MAX_CAPACITY, 1)?;
    }
    Ok(q)
}

// ---- The model, part by part

// Edition, facilities, storages and each capacity.
fn servers(s: &[u8], tables: &mut [u32; TABLES], p: Place) -> Result<(Model, Place), Refusal>
    ensures stage { Stage servers_shape no_model p tables.old tables.new result (servers_field s.now (cursor_of p)) }
    ensures within { (h : Model) (q : Place) → result ≡ Ok (h, q) → Within h }
{
    let (edition, a) = number(s, p, 1, Model::EDITIONS)?;
    let (facility_count, b) = number(s, a, 0, Model::MAX_FACILITIES)?;
    let (storages, c) = number(s, b, 0, Model::MAX_STORAGES)?;
    let m = Model {
        facilities: facility_count,
        storages,
        ..Model::empty()
    };
    clear(tables, edition as u32);
    facilities(tables, facility_count);
    let q = capacities(s, tables, m, c)?;
    Ok((m, q))
}

// Queues, and values with their sums.
fn things(
    s: &[u8],
    tables: &mut [u32; TABLES],
    m: Model,
    p: Place,
) -> Result<(Model, Place), Refusal>
    requires { Within m }
    ensures stage { Stage things_shape m p tables.old tables.new result (things_field s.now m (cursor_of p)) }
    ensures within { (h : Model) (q : Place) → result ≡ Ok (h, q) → Within h }
{
    let (queues, a) = number(s, p, 0, Model::MAX_QUEUES)?;
    let (value_count, b) = number(s, a, 0, Model::MAX_VALUES)?;
    let after = Model {
        queues,
        values: value_count,
        ..m
    };
    let q = values(s, tables, after, b)?;
    Ok((after, q))
}

// Lists, counter, and blocks with their operands.
fn program(
    s: &[u8],
    tables: &mut [u32; TABLES],
    m: Model,
    p: Place,
) -> Result<(Model, Place), Refusal>
    requires { Within m }
    ensures { Stage program_shape m p tables.old tables.new result
        (program_field s.now m (capacities_of m tables.old) (cursor_of p)) }
{
    let (lists, a) = number(s, p, 0, Model::MAX_LISTS)?;
    let (counter, b) = number(s, a, 1, Model::MAX_COUNTER)?;
    let (block_count, c) = number(s, b, 1, Model::MAX_BLOCKS)?;
    let after = Model {
        lists,
        counter,
        blocks: block_count,
        ..m
    };
    let q = blocks(s, tables, after, c)?;
    Ok((after, q))
}

// Questions 3 and 4 of the whole model, and 5 of its values.
fn model(s: &[u8], tables: &mut [u32; TABLES]) -> Result<(Model, Place), Refusal>
    ensures { Stage model_shape no_model no_place tables.old tables.new result (model_fields s.now in_force beginning) }
{
    let start = Place {
        position: 0,
        numbers: 0,
        mentions: 0,
        named: 0,
    };
    let (a, p) = servers(s, tables, start)?;
    let (b, q) = things(s, tables, a, p)?;
    program(s, tables, b, q)
}

// Questions 6 and 7 after it.
fn formed_model(s: &[u8], tables: &mut [u32; TABLES]) -> Result<Model, Refusal>
    ensures { Models tables.new result (model_of_lem in_force s.now beginning) }
{
    let (m, p) = model(s, tables)?;
    let count = m.blocks;
    if p.position != s.len() {
        return Err(Refusal::ModelGoesOn);
    }
    if !well_placed(tables, count) {
        return Err(Refusal::IllFormed);
    }
    if !targets_move(tables, count) {
        return Err(Refusal::IllFormed);
    }
    if count < p.named {
        return Err(Refusal::IllFormed);
    }
    if !groups_whole(tables, count) {
        return Err(Refusal::IllFormed);
    }
    Ok(m)
}

// ---- The tape

// A number of the tape, at most hi: questions 8 and 9.
fn tape_field(s: &[u8], at: usize, hi: usize) -> Result<(u64, usize), Refusal>
    ensures { (i j : ℕ) → parsed_of i j result ≡ tape_field s.now hi (cursor_at at i j) }
{
    read_text(s, at, Model::FIVE_GROUPS, 0, hi as u64, Text::Tape)
}

// The times of a list.
fn sample_times(s: &[u8], at: usize, count: usize) -> Result<usize, Refusal>
    ensures { (i j : ℕ) → Skips count result (times count (tape_field s.now max_time) (cursor_at at i j)) }
{
    let mut next = at;
    for _ in 0..count {
        let (_, after) = tape_field(s, next, Model::MAX_TIME)?;
        next = after;
    }
    Ok(next)
}

// List k (from 0): where its times begin and how many they are is kept.
fn sample_list(
    s: &[u8],
    lists: &mut [u64; LIST_CELLS],
    k: usize,
    at: usize,
) -> Result<usize, Refusal>
    requires { k < max_lists }
    ensures { (i j : ℕ) → Listed s.now k lists.old lists.new result
        (list_field s.now in_force (cursor_at at i j)) }
{
    let (count, next) = tape_field(s, at, Model::MAX_SAMPLES)?;
    lists[k] = next as u64;
    lists[LIST_COUNTS + k] = count;
    sample_times(s, next, count as usize)
}

#[tactic(auto, unfolding(crate::specs::Lists::empty_lists))]
fn clear_lists(lists: &mut [u64; LIST_CELLS])
    ensures { lists.new ≡ empty_lists }
{
    *lists = [0u64; LIST_CELLS];
}

fn sample_lists(s: &[u8], lists: &mut [u64; LIST_CELLS], count: usize) -> Result<usize, Refusal>
    requires { count ≤ max_lists }
    ensures { Lists s.now 0 lists.old lists.new result (times count (list_field s.now in_force) beginning) }
{
    let mut next = 0;
    for k in 0..count {
        next = sample_list(s, lists, k, next)?;
    }
    Ok(next)
}

// Questions 8 to 10.
fn whole_tape(s: &[u8], lists: &mut [u64; LIST_CELLS], count: usize) -> Result<usize, Refusal>
    requires { count ≤ max_lists }
    ensures { Lists s.now 0 empty_lists lists.new result (tape_of in_force s.now count beginning) }
{
    clear_lists(lists);
    let end = sample_lists(s, lists, count)?;
    if end != s.len() {
        return Err(Refusal::TapeGoesOn);
    }
    Ok(end)
}

// ---- All questions

// Validates a model and a tape and decodes them into the tables and the cells of the lists.
pub fn decode(
    model: &[u8],
    tape: &[u8],
    work_len: usize,
    report_len: usize,
    tables: &mut [u32; TABLES],
    lists: &mut [u64; LIST_CELLS],
) -> Result<Model, Refusal>
    ensures { Decodes tape.now result tables.new lists.new
        (answer in_force model.now tape.now work_len report_len) }
{
    if work_len < Model::WORK_NUMBERS {
        return Err(Refusal::ShortWork);
    }
    if report_len < Model::REPORT_ROOM {
        return Err(Refusal::ShortReport);
    }
    let m = formed_model(model, tables)?;
    whole_tape(tape, lists, m.lists)?;
    watch(tables, m.blocks, m.values);
    Ok(m)
}

// The answer alone: 0, or the number of the first question answered "no".
// kept: a number, which is what its clause and those who print it speak of; `decode` answers the `Result`.
pub fn validate(model: &[u8], tape: &[u8], work_len: usize, report_len: usize) -> u32
    ensures { result ≡ refusal_of (answer in_force model.now tape.now work_len report_len) }
{
    let mut tables = [0u32; TABLES];
    let mut lists = [0u64; LIST_CELLS];
    match decode(model, tape, work_len, report_len, &mut tables, &mut lists) {
        Err(refusal) => refusal.number(),
        Ok(_) => 0,
    }
}
