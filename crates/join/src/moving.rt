// One number of a part, written as the joined model numbers it.
ghost use Rattle.std.specs.Prelude.{ℕ, ◌≡◌};
ghost use Rattle.codec.specs.Writing.{written, put};
ghost use Rattle.join_laws.specs.declared.shift.Shift.{Shift as Moves};
ghost use Rattle.join_laws.specs.Rows.{moved_by};
ghost use Rattle.join.specs.Forms.{role_number};

use codec::write_number;
use join_laws::Shift;

// What a number of the tables names. What stands there from 0 is written from 1.
#[derive(Clone, Copy)]
pub enum Role {
    Plain,
    Parameter,
    Block,
    Queue,
    Server,
    Facility,
    Value,
    List,
    Target,
}

impl Role {
    // That of the number behind a tag; 12 and 13 count as a list and a target.
    pub fn of(tag: u32) -> Role
        ensures { (by : Moves) (n : ℕ) → moved_by by (role_number result) n ≡ moved_by by tag n }
    {
        match tag {
            2 => Role::Parameter,
            4 => Role::Block,
            5 => Role::Queue,
            6 => Role::Server,
            7 => Role::Server,
            8 => Role::Facility,
            9 => Role::Value,
            12 => Role::List,
            13 => Role::Target,
            _ => Role::Plain,
        }
    }
}

// A number of the tables by its role.
fn moved(role: Role, n: u32, by: Shift) -> u64
    ensures { result ≡ moved_by by (role_number role) n }
{
    let v = u64::from(n);
    match role {
        Role::Plain => v,
        Role::Parameter => v + 1,
        Role::Block => v + 1 + u64::from(by.blocks),
        Role::Queue => v + 1 + u64::from(by.queues),
        Role::Server => u64::from(n.saturating_sub(by.own)) + 1 + u64::from(by.storages),
        Role::Facility => v + 1 + u64::from(by.facilities),
        Role::Value => v + 1 + u64::from(by.values),
        Role::List => v + 1 + u64::from(by.lists),
        Role::Target => v + u64::from(by.blocks),
    }
}

// Writes it at a position.
pub fn emit(out: &mut [u8], at: usize, role: Role, n: u32, by: Shift) -> usize
    ensures { written result out.new ≡ put (moved_by by (role_number role) n) (written at out.old) }
{
    write_number(out, at, moved(role, n, by))
}
