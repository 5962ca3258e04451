// Blocks of a part, from the tables, written as the joined model numbers them.
ghost use Rattle.std.specs.Prelude.{ℕ, ◌≡◌, ◌+◌, ◌*◌, ◌≤◌, ◌<◌};
ghost use Rattle.machine.specs.All.{length, max_blocks};
ghost use Rattle.constants.specs.Numbers.{kind_number};
ghost use Rattle.layout.specs.All.{tables_size};
ghost use Rattle.codec.specs.Writing.{written};
ghost use Rattle.join_laws.specs.Rows.{moved_by, shape_of, role_of, operand_at, operands_from, block_row, block_rows, puts};
ghost use Rattle.join_laws.specs.declared.shift.Shift.{Shift as Moves};
ghost use Rattle.join.specs.Forms.{role_number, form_number, digits_of};

use super::moving::{Role, emit};
use constants::Kind;
use join_laws::Shift;
use layout::{BLOCK_WIDTH, number};

// What an operand is: of one role, or as the tag or the code before it says.
#[derive(Clone, Copy)]
enum Form {
    Is(Role),
    ByTag,
    ByCode,
}

const PLAIN: Form = Form::Is(Role::Plain);

const PARAMETER: Form = Form::Is(Role::Parameter);

const QUEUE: Form = Form::Is(Role::Queue);

const STORAGE: Form = Form::Is(Role::Server);

const FACILITY: Form = Form::Is(Role::Facility);

const LIST: Form = Form::Is(Role::List);

const TARGET: Form = Form::Is(Role::Target);

// The operands of a kind.
fn shape(kind: Kind) -> &'static [Form]
    ensures digits { digits_of result.now ≡ shape_of (kind_number kind) }
    ensures most { length result.now ≤ 6 }
{
    match kind {
        Kind::Generate => &[LIST, PLAIN],
        Kind::Advance => &[LIST],
        Kind::Terminate => &[PLAIN],
        Kind::Seize => &[FACILITY],
        Kind::Release => &[FACILITY],
        Kind::Enter => &[STORAGE, PLAIN],
        Kind::Leave => &[STORAGE, PLAIN],
        Kind::WaitServer => &[PARAMETER, Form::ByCode],
        Kind::WaitTerms => &[PLAIN, Form::ByTag, PLAIN, PLAIN, Form::ByTag],
        Kind::Branch => &[PLAIN, Form::ByTag, PLAIN, PLAIN, Form::ByTag, TARGET],
        Kind::Goto => &[TARGET],
        Kind::Assign => &[PARAMETER, PLAIN, Form::ByTag],
        Kind::Priority => &[PLAIN],
        Kind::Split => &[PLAIN, TARGET],
        Kind::Arrive => &[QUEUE],
        Kind::Depart => &[QUEUE],
        Kind::JoinedWait => &[PARAMETER, Form::ByCode, PLAIN],
        Kind::Assemble => &[PLAIN],
        Kind::Preempt => &[FACILITY],
        Kind::Return => &[FACILITY],
    }
}

// Those of a number; one that is no kind has them as a RETURN.
fn shape_by(kind: u32) -> &'static [Form]
    ensures digits { digits_of result.now ≡ shape_of kind }
    ensures most { length result.now ≤ 6 }
{
    match Kind::of(kind) {
        Some(known) => shape(known),
        None => &[FACILITY],
    }
}

// The role of an operand, with the number before it.
fn role(form: Form, before: u32) -> Role
    ensures { (by : Moves) (n : ℕ) → moved_by by (role_number result) n ≡ moved_by by (role_of (form_number form) before) n }
{
    match form {
        Form::Is(role) => role,
        Form::ByTag => Role::of(before),
        Form::ByCode => {
            if before < 2 {
                Role::Facility
            } else {
                Role::Server
            }
        }
    }
}

// One operand.
fn operand(tables: &[u32], at: usize, form: Form, by: Shift, out: &mut [u8], to: usize) -> usize
    requires { 1 ≤ at }
    ensures { written result out.new ≡ puts (operand_at tables.now by at (form_number form)) (written to out.old) }
{
    let named = role(form, number(tables, at - 1));
    emit(out, to, named, number(tables, at), by)
}

// The operands from a place on.
fn operands(
    tables: &[u32],
    at: usize,
    forms: &[Form],
    by: Shift,
    out: &mut [u8],
    to: usize,
) -> usize
    requires { (1 ≤ at) × (at ≤ tables_size) × (length forms.now ≤ 6) }
    ensures { written result out.new ≡ puts (operands_from tables.now by 6 at (digits_of forms.now)) (written to out.old) }
{
    let mut next = to;
    for (i, form) in forms.iter().enumerate() {
        next = operand(tables, at + i, *form, by, out, next);
    }
    next
}

// The block at a place of the tables.
fn block(tables: &[u32], at: usize, by: Shift, out: &mut [u8], to: usize) -> usize
    requires { at < tables_size }
    ensures { written result out.new ≡ puts (block_row tables.now by at) (written to out.old) }
{
    let kind = number(tables, at);
    let next = emit(out, to, Role::Plain, kind, by);
    operands(tables, at + 1, shape_by(kind), by, out, next)
}

// The first `count` blocks.
pub fn blocks(tables: &[u32], count: usize, by: Shift, out: &mut [u8], to: usize) -> usize
    requires { count ≤ max_blocks }
    ensures { written result out.new ≡ puts (block_rows tables.now by count 0) (written to out.old) }
{
    let mut next = to;
    for b in 0..count {
        next = block(tables, BLOCK_WIDTH * b, by, out, next);
    }
    next
}
