// The program of a model (document 01, "Blocks", "Kind and operands as stored"): blocks read with
// questions 3 and 4 and stored in the tables as they are read; then what question 7 asks of them.

#![tactic(auto)]

ghost use Rattle.std.specs.Prelude.{◌≡◌, ◌&&◌, ◌+◌, ◌*◌, ◌≤◌, ◌<◌};
ghost use Rattle.machine.specs.All.{true, not, eqb, max_back, max_blocks, in_force, field, times, operands as operandsField, block_field};
ghost use Rattle.layout.specs.All.{block_width, program_size, tables_size, word_end};
ghost use Rattle.parse_values.specs.Keeps.{Fits, Stores, cursor_of, number_shape};
ghost use Rattle.parse_values.specs.Filled.{Filled};
ghost use Rattle.parse_values.specs.Shapes.{Within, counts_of};
ghost use Rattle.constants.specs.Numbers.{kind_number};
ghost use Rattle.program.specs.Shapes.{joined_kind, branch_kind, assign_kind, pair_field, pair_shape, units_field, units_shape, watched_field, watched_shape, compared_field, compared_shape, operands_shape, block_shape, capacities_of};
ghost use Rattle.program.specs.Formed.{Formed, leaves_kind, target_from, names_generate, back_from, reaches_from, inside_from, names_inside, misnames, waits_after, placed_from, targets_from, joined_from};

use constants::{Kind, Model, Refusal};
use layout::{
    BLOCK_WIDTH, BRANCH_TARGET, CAPACITIES, CODES, FIRST, RELATION, RELATIONS, RIGHT, SECOND,
    TABLES, THIRD, number,
};
use parse_values::{Place, Range, block_term, keep};

// ---- Operands

// One number.
pub fn single(
    s: &[u8],
    tables: &mut [u32; TABLES],
    to: usize,
    p: Place,
    lo: usize,
    hi: usize,
    plus: usize,
) -> Result<Place, Refusal>
    requires { (to < tables_size) × Fits lo hi plus }
    ensures { Stores (number_shape lo hi plus) p to tables.old tables.new result (field s.now 3 lo hi (cursor_of p)) }
{
    let (_, q) = keep(s, tables, to, p, lo, hi, plus)?;
    Ok(q)
}

// Two numbers.
fn pair(
    s: &[u8],
    tables: &mut [u32; TABLES],
    to: usize,
    p: Place,
    first: Range,
    second: Range,
) -> Result<Place, Refusal>
    requires { (to + 1 < tables_size) × Fits first.lo first.hi first.plus × Fits second.lo second.hi second.plus }
    ensures { Stores (pair_shape first second) p to tables.old tables.new result
        (pair_field s.now first second (cursor_of p)) }
{
    let (_, q) = keep(s, tables, to, p, first.lo, first.hi, first.plus)?;
    single(s, tables, to + 1, q, second.lo, second.hi, second.plus)
}

// A storage and 1..capacity units of it, for ENTER and LEAVE.
fn units(
    s: &[u8],
    tables: &mut [u32; TABLES],
    to: usize,
    m: Model,
    p: Place,
) -> Result<Place, Refusal>
    requires { (to + 1 < program_size) × Within m }
    ensures { Stores (units_shape (counts_of m)) p to tables.old tables.new result
        (units_field s.now (counts_of m) (capacities_of m tables.old) (cursor_of p)) }
{
    let (k, q) = keep(s, tables, to, p, 1, m.storages, m.facilities)?;
    let capacity = tables[CAPACITIES + m.facilities + (k - 1)] as usize;
    single(s, tables, to + 1, q, 1, capacity, 1)
}

// A code and a server: a facility for codes 1 and 2, else a storage.
fn watched(
    s: &[u8],
    tables: &mut [u32; TABLES],
    to: usize,
    m: Model,
    p: Place,
) -> Result<Place, Refusal>
    requires { (to + 1 < tables_size) × Within m }
    ensures { Stores watched_shape p to tables.old tables.new result (watched_field s.now (counts_of m) (cursor_of p)) }
{
    let (code, q) = keep(s, tables, to, p, 1, CODES, 0)?;
    if code <= 2 {
        return single(s, tables, to + 1, q, 1, m.facilities, 0);
    }
    single(s, tables, to + 1, q, 1, m.storages, m.facilities)
}

// A joined WAITIF: code, server, back count.
fn joined_wait(
    s: &[u8],
    tables: &mut [u32; TABLES],
    to: usize,
    m: Model,
    p: Place,
) -> Result<Place, Refusal>
    requires { (to + 2 < tables_size) × Within m }
    ensures { Stores (operands_shape m.blocks joined_kind) p to tables.old tables.new result
        (operandsField s.now (counts_of m) (capacities_of m tables.old) joined_kind (cursor_of p)) }
{
    let q = watched(s, tables, to, m, p)?;
    single(s, tables, to + 2, q, 1, Model::MAX_BACK, 1)
}

// A term, a relation and a term.
fn compared(
    s: &[u8],
    tables: &mut [u32; TABLES],
    to: usize,
    m: Model,
    p: Place,
) -> Result<Place, Refusal>
    requires { (to + 4 < tables_size) × Within m }
    ensures { Stores compared_shape p to tables.old tables.new result
        (compared_field s.now (counts_of m) (cursor_of p)) }
{
    let left = block_term(s, tables, to, m, p)?;
    let q = single(s, tables, to + RELATION, left, 1, RELATIONS, 1)?;
    block_term(s, tables, to + RIGHT, m, q)
}

// IF left, relation, right, target.
fn branch(
    s: &[u8],
    tables: &mut [u32; TABLES],
    to: usize,
    m: Model,
    p: Place,
) -> Result<Place, Refusal>
    requires { (to + 5 < tables_size) × Within m }
    ensures { Stores (operands_shape m.blocks branch_kind) p to tables.old tables.new result
        (operandsField s.now (counts_of m) (capacities_of m tables.old) branch_kind (cursor_of p)) }
{
    let q = compared(s, tables, to, m, p)?;
    single(s, tables, to + 5, q, 1, m.blocks, 1)
}

// LET parameter, term.
fn assign(
    s: &[u8],
    tables: &mut [u32; TABLES],
    to: usize,
    m: Model,
    p: Place,
) -> Result<Place, Refusal>
    requires { (to + 2 < tables_size) × Within m }
    ensures { Stores (operands_shape m.blocks assign_kind) p to tables.old tables.new result
        (operandsField s.now (counts_of m) (capacities_of m tables.old) assign_kind (cursor_of p)) }
{
    let q = single(s, tables, to, p, 1, Model::PARAMETERS, 0)?;
    block_term(s, tables, to + 1, m, q)
}

fn range(lo: usize, hi: usize, plus: usize) -> Range
    ensures { (result.lo ≡ lo) × (result.hi ≡ hi) × (result.plus ≡ plus) }
{
    Range { lo, hi, plus }
}

// What follows a kind.
fn operands(
    s: &[u8],
    tables: &mut [u32; TABLES],
    to: usize,
    m: Model,
    kind: Kind,
    p: Place,
) -> Result<Place, Refusal>
    requires { (to + 5 < program_size) × Within m }
    ensures { Stores (operands_shape m.blocks (kind_number kind)) p to tables.old tables.new result
        (operandsField s.now (counts_of m) (capacities_of m tables.old) (kind_number kind) (cursor_of p)) }
{
    match kind {
        Kind::Generate => {
            let list = range(1, m.lists, 0);
            let priority = range(0, Model::MAX_PRIORITY, 0);
            pair(s, tables, to, p, list, priority)
        }
        Kind::Advance => single(s, tables, to, p, 1, m.lists, 0),
        Kind::Terminate => single(s, tables, to, p, 0, Model::MAX_TERMINATE, 0),
        Kind::Seize | Kind::Release | Kind::Preempt | Kind::Return => {
            single(s, tables, to, p, 1, m.facilities, 0)
        }
        Kind::Enter | Kind::Leave => units(s, tables, to, m, p),
        Kind::WaitServer => watched(s, tables, to, m, p),
        Kind::WaitTerms => compared(s, tables, to, m, p),
        Kind::Branch => branch(s, tables, to, m, p),
        Kind::Goto => single(s, tables, to, p, 1, m.blocks, 1),
        Kind::Assign => assign(s, tables, to, m, p),
        Kind::Priority => single(s, tables, to, p, 0, Model::MAX_PRIORITY, 0),
        Kind::Split => {
            let copies = range(1, Model::MAX_SPLIT, 1);
            let target = range(1, m.blocks, 1);
            pair(s, tables, to, p, copies, target)
        }
        Kind::Arrive | Kind::Depart => single(s, tables, to, p, 1, m.queues, 0),
        Kind::JoinedWait => joined_wait(s, tables, to, m, p),
        Kind::Assemble => single(s, tables, to, p, 2, Model::MAX_ASSEMBLE, 2),
    }
}

// ---- Blocks

// Block b (from 0).
fn block(
    s: &[u8],
    tables: &mut [u32; TABLES],
    b: usize,
    m: Model,
    p: Place,
) -> Result<Place, Refusal>
    requires { (b < max_blocks) × Within m }
    ensures { Stores (block_shape m.blocks) p (0 + block_width * b) tables.old tables.new result
        (block_field s.now in_force.kinds (counts_of m) (capacities_of m tables.old) (cursor_of p)) }
{
    let to = BLOCK_WIDTH * b;
    let (n, q) = keep(s, tables, to, p, 1, Kind::COUNT, 1)?;
    let kind = Kind::of(n as u32).unwrap();
    operands(s, tables, to + FIRST, m, kind, q)
}

// All blocks.
pub fn blocks(s: &[u8], tables: &mut [u32; TABLES], m: Model, p: Place) -> Result<Place, Refusal>
    requires { Within m }
    ensures { Filled (block_shape m.blocks) (Formed m.blocks) block_width 0 p tables.old tables.new result
        (times m.blocks (block_field s.now in_force.kinds (counts_of m) (capacities_of m tables.old)) (cursor_of p)) }
{
    let mut q = p;
    for b in 0..m.blocks {
        q = block(s, tables, b, m, q)?;
    }
    Ok(q)
}

// ---- Question 7, over the rows of the program

// TERMINATE or GOTO: nothing goes on past it.
fn leaves(kind: u32) -> bool
    ensures { result ≡ leaves_kind kind }
{
    kind == Kind::Terminate.number() || kind == Kind::Goto.number()
}

// A GENERATE behind a block that goes on, or with nothing before it that leaves.
fn misplaced(kind: u32, left: bool) -> bool
    ensures { result ≡ (eqb kind 1 && not left) }
{
    kind == Kind::Generate.number() && !left
}

// Each GENERATE is first or after TERMINATE or GOTO, and the last block is one of these.
pub fn well_placed(tables: &[u32; TABLES], blocks: usize) -> bool
    requires { blocks ≤ max_blocks }
    ensures { result ≡ placed_from tables.now blocks 0 true }
{
    let mut left = true;
    for b in 0..blocks {
        let kind = tables[BLOCK_WIDTH * b];
        if misplaced(kind, left) {
            return false;
        }
        left = leaves(kind);
    }
    let last_leaves = left;
    last_leaves
}

// The target of block b, 0 if it has none.
#[tactic(auto, unfolding(crate::specs::Formed::target_from))]
fn target(tables: &[u32; TABLES], b: usize) -> u32
    requires { b < max_blocks }
    ensures { result ≡ target_from tables.now (block_width * b) }
{
    let at = BLOCK_WIDTH * b;
    let kind = tables[at];
    if kind == Kind::Branch.number() {
        return tables[at + BRANCH_TARGET];
    }
    if kind == Kind::Goto.number() {
        return tables[at + FIRST];
    }
    if kind == Kind::Split.number() {
        return tables[at + SECOND];
    }
    0
}

#[tactic(auto, unfolding(crate::specs::Formed::names_generate))]
fn names_generate(tables: &[u32; TABLES], b: usize) -> bool
    requires { b < max_blocks }
    ensures { result ≡ names_generate tables.now (block_width * b) }
{
    let t = target(tables, b) as usize;
    t != 0 && number(tables, BLOCK_WIDTH * (t - 1)) == Kind::Generate.number()
}

// The back count of block b, 0 if it has none.
#[tactic(auto, unfolding(crate::specs::Formed::back_from))]
fn back(tables: &[u32; TABLES], b: usize) -> u32
    requires { b < max_blocks }
    ensures { result ≡ back_from tables.now (block_width * b) }
{
    let at = BLOCK_WIDTH * b;
    if tables[at] == Kind::JoinedWait.number() {
        return tables[at + THIRD];
    }
    0
}

// Is block t (from 1) the c-th last of a group, and not its first?
#[tactic(auto, unfolding(crate::specs::Formed::reaches_from))]
fn reaches(tables: &[u32; TABLES], blocks: usize, t: usize, c: usize) -> bool
    requires { (blocks ≤ max_blocks) × (t < word_end) × (1 ≤ t) × (1 ≤ c) × (c ≤ max_back) }
    ensures { result ≡ reaches_from tables.now blocks t c }
{
    let b = t + c - 2;
    b < blocks && c <= back(tables, b) as usize
}

// Is block t inside a group: its second, a later one or its kind 17 block?
fn inside(tables: &[u32; TABLES], blocks: usize, t: usize) -> bool
    requires { (blocks ≤ max_blocks) × (t < word_end) × (1 ≤ t) }
    ensures { result ≡ inside_from tables.now blocks t max_back }
{
    for c in 0..Model::MAX_BACK {
        if reaches(tables, blocks, t, c + 1) {
            return true;
        }
    }
    false
}

#[tactic(auto, unfolding(crate::specs::Formed::names_inside))]
fn names_inside(tables: &[u32; TABLES], blocks: usize, b: usize) -> bool
    requires { (blocks ≤ max_blocks) × (b < max_blocks) }
    ensures { result ≡ names_inside tables.now blocks (block_width * b) }
{
    let t = target(tables, b) as usize;
    t != 0 && inside(tables, blocks, t)
}

#[tactic(auto, unfolding(crate::specs::Formed::misnames))]
fn misnames(tables: &[u32; TABLES], blocks: usize, b: usize) -> bool
    requires { (blocks ≤ max_blocks) × (b < max_blocks) }
    ensures { result ≡ misnames tables.now blocks (block_width * b) }
{
    names_generate(tables, b) || names_inside(tables, blocks, b)
}

// No target names a GENERATE, or a block inside a group.
pub fn targets_move(tables: &[u32; TABLES], blocks: usize) -> bool
    requires { blocks ≤ max_blocks }
    ensures { result ≡ targets_from tables.now blocks blocks 0 }
{
    for b in 0..blocks {
        if misnames(tables, blocks, b) {
            return false;
        }
    }
    true
}

// How many waits of kind 8 stand right before the block after this one.
fn waits_after(kind: u32, waits: usize) -> usize
    requires { waits < max_blocks }
    ensures { (result ≡ waits_after kind waits) × (result ≤ waits + 1) }
{
    if kind == Kind::WaitServer.number() {
        waits + 1
    } else {
        0
    }
}

// Each kind 17 block stands behind as many waits of kind 8 as its back count.
pub fn groups_whole(tables: &[u32; TABLES], blocks: usize) -> bool
    requires { blocks ≤ max_blocks }
    ensures { result ≡ joined_from tables.now blocks 0 0 }
{
    let mut waits = 0;
    for b in 0..blocks {
        if waits < back(tables, b) as usize {
            return false;
        }
        waits = waits_after(tables[BLOCK_WIDTH * b], waits);
    }
    true
}
