// Two plants as one model, over bytes (document 02, item 13). specs/Contract has what `join` promises for all bytes and lengths.

#![tactic(auto)]

mod copying;
mod moving;
mod nested;
mod part;
mod rows;
mod whole;

ghost use Rattle.std.specs.Prelude.{◌≤◌, ◌≡◌};
ghost use Rattle.machine.specs.All.{length};
ghost use Rattle.join_laws.specs.Joining.{join as joining};
ghost use Rattle.join.specs.Contract.{Contract};
ghost use Rattle.join_laws.specs.Whole.{kept_room, at_front_lem, joined_bytes_lem, joined_tables, Ready};

use constants::{Model, Refusal};
use copying::{copy, end_to_end, room_for};
use decode::decode;
use layout::{LIST_CELLS, TABLES};
use part::Part;
use whole::{may_join, model};

// A joined model is at most 8,632 numbers of at most nine bytes.
const MODEL_ROOM: usize = 81_920;

// Writes the joined model if it fits; how many bytes it takes.
fn joined_model(first: &Part, second: &Part, out: &mut [u8]) -> usize
    requires { length (joined_bytes_lem first.now.tables.now first.now.model second.now.tables.now second.now.model) ≤ kept_room }
    ensures value { result ≡ length (joined_bytes_lem first.now.tables.now first.now.model second.now.tables.now second.now.model) }
    ensures stored { out.new
        ≡ at_front_lem (joined_bytes_lem first.now.tables.now first.now.model second.now.tables.now second.now.model) out.old }
{
    let mut room = [0u8; MODEL_ROOM];
    let bytes = model(first, second, &mut room);
    if out.len() < bytes {
        return bytes;
    }
    copy(&room[..bytes], &mut out[..bytes]);
    bytes
}

// Two accepted pairs.
fn pair(
    first: &Part,
    second: &Part,
    tape1: &[u8],
    tape2: &[u8],
    out_model: &mut [u8],
    out_tape: &mut [u8],
) -> Result<(usize, usize), Refusal>
    requires { Ready first.now.tables.now first.now.model second.now.tables.now second.now.model }
    ensures { Contract out_model.old out_tape.old result out_model.new out_tape.new
        (joined_tables first.now.tables.now first.now.model second.now.tables.now second.now.model
        tape1.now tape2.now (length out_model.old) (length out_tape.old)) }
{
    if !may_join(first, second) {
        return Err(Refusal::NotJoinable);
    }
    if !room_for(tape1, tape2, out_tape.len()) {
        return Err(Refusal::JoinRoom);
    }
    let bytes = joined_model(first, second, out_model);
    if out_model.len() < bytes {
        return Err(Refusal::JoinRoom);
    }
    end_to_end(tape1, tape2, out_tape);
    Ok((bytes, tape1.len() + tape2.len()))
}

// Joins two models and their tapes, first pair first: the lengths of the joined model and tape, or the refusal.
pub fn join(
    model1: &[u8],
    tape1: &[u8],
    model2: &[u8],
    tape2: &[u8],
    out_model: &mut [u8],
    out_tape: &mut [u8],
) -> Result<(usize, usize), Refusal>
    ensures { Contract out_model.old out_tape.old result out_model.new out_tape.new
        (joining model1.now tape1.now model2.now tape2.now (length out_model.old) (length out_tape.old)) }
{
    let mut tables1 = [0u32; TABLES];
    let mut tables2 = [0u32; TABLES];
    let mut lists = [0u64; LIST_CELLS];
    let a = decode(
        model1,
        tape1,
        Model::WORK_NUMBERS,
        Model::REPORT_ROOM,
        &mut tables1,
        &mut lists,
    )?;
    let b = decode(
        model2,
        tape2,
        Model::WORK_NUMBERS,
        Model::REPORT_ROOM,
        &mut tables2,
        &mut lists,
    )?;
    let first = Part {
        tables: &tables1,
        model: a,
    };
    let second = Part {
        tables: &tables2,
        model: b,
    };
    pair(&first, &second, tape1, tape2, out_model, out_tape)
}
