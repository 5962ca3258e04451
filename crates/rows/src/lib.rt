// Transactions and the seven kinds of lists in the lent work buffer. specs/Layout.antt of rows_laws has the layout, and the definitions
// beside it say what each function does to the numbers of the buffer. Functions of several numbers take the buffer first, then
// the list, then the cell or the row.

#![tactic(auto)]

pub mod cells;
pub mod clock;
pub mod future;
pub mod lines;
pub mod lists;
pub mod make;
pub mod order;
mod row;
pub mod wake;
pub mod whole;

pub use row::{Chain, Row, Server, Work};

// The layout of the work buffer (specs/Layout of rows_laws): FIELDS of ROWS numbers each, FIELD_WIDTH apart. A number that is not below
// ROWS is no row.
pub const ROWS: u32 = 1_024;

// The rows are gone through in PARTS of PART_ROWS (whole).
pub const PART_ROWS: u32 = 256;

pub const PARTS: u32 = 4;

pub const FIELDS: u32 = 14;

pub const FIELD_WIDTH: u32 = 1_032;

pub const WORK_NUMBERS: u32 = 16_384;

// Fields of a row.
pub const NUMBER: u32 = 0;

pub const STANDING: u32 = 1;

pub const PARAMETER_1: u32 = 2;

pub const PARAMETER_2: u32 = 3;

pub const PARAMETER_3: u32 = 4;

pub const PARAMETER_4: u32 = 5;

pub const NEXT: u32 = 6;

pub const SERIAL: u32 = 7;

pub const TIME: u32 = 8;

pub const TIME_HIGH: u32 = 9;

pub const FAMILY: u32 = 10;

pub const SLOT: u32 = 11;

pub const PLACE: u32 = 12;

pub const LINK: u32 = 13;

// Where the last three begin, and behind them what lists keep.
pub const SLOTS: u32 = SLOT * FIELD_WIDTH;

pub const PLACES: u32 = PLACE * FIELD_WIDTH;

pub const LINKS: u32 = LINK * FIELD_WIDTH;

pub const HEADS: u32 = FIELDS * FIELD_WIDTH;

pub const TAILS: u32 = HEADS + ROWS;

// From here on, the serials of one more clock move may not fit 32 bits.
pub const SERIAL_END: u32 = 4_000_000_000;

// What the lowest bit of the high half of a move time is worth.
pub const WORD_END: u64 = 4_294_967_296;

// Lists: the QL of a server is its number less one, its WELs follow from WELS on; then WSL and REL, the gatherers of each block, the
// interrupted one of each facility, FEL and the free rows.
pub const CHAINS: u32 = 772;

pub const WELS: u32 = 64;

pub const WSL: u32 = 448;

pub const REL: u32 = 449;

// the lists of gatherers, one for each block
pub const GATHERERS: u32 = 450;

// the lists of interrupted ones, one for each server
pub const INTERRUPTED: u32 = 706;

pub const FEL: u32 = 770;

pub const FREE: u32 = 771;

// Where walks onto a list begin (lists): HINTS_EACH for each of HINTED lists or more that share them.
pub const HINTS: u32 = HEADS + CHAINS;

pub const HINTED: u32 = 63;

pub const HINTS_EACH: u32 = 4;

// Where the rows of holders stand, one for each server (future).
pub const HOLDERS: u32 = TAILS + CHAINS;

pub const WSL_HEAD: u32 = HEADS + WSL;

pub const FEL_HEAD: u32 = HEADS + FEL;

pub const FEL_SIZE: u32 = TAILS + FEL;

pub const FREE_HEAD: u32 = HEADS + FREE;

// The place of a row that is on no list.
pub const NOWHERE: u32 = 1_024;
