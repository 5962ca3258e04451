// The header of a model, and the limits of documents 01 and 02 as its constants.
ghost use Rattle.std.specs.Prelude.{◌≡◌};
ghost use Rattle.machine.specs.All.{max_facilities, max_storages, max_capacity, max_queues, max_values, max_lists, max_counter, max_blocks, max_living, max_samples, max_time, max_priority, parameter_count, max_terminate, max_split, max_back, max_assemble, max_constant, max_terms, max_value_numbers, max_brackets, max_mentions, max_serial, max_turns, record_room, max_clock, max_transaction, max_number_bytes, max_number, five_groups, max_report_number_bytes, max_report_number, work_numbers, report_room};

// The header of a decoded model: how many there are of each thing, and the counter.
#[derive(Clone, Copy)]
pub struct Model {
    pub facilities: usize,
    pub storages: usize,
    pub queues: usize,
    pub values: usize,
    pub lists: usize,
    pub counter: usize,
    pub blocks: usize,
}

impl Model {
    // Document 01, "These limits are named constants of the model, beside 1,024 living transactions." Checks and contracts name
    // them: a contract by the name of machine's specs/Limits.
    pub const MAX_FACILITIES: usize = 32;

    pub const MAX_STORAGES: usize = 32;

    pub const MAX_CAPACITY: usize = 65_535;

    pub const MAX_QUEUES: usize = 32;

    pub const MAX_VALUES: usize = 8;

    pub const MAX_LISTS: usize = 16;

    pub const MAX_COUNTER: usize = 65_535;

    pub const MAX_BLOCKS: usize = 256;

    pub const MAX_LIVING: usize = 1_024;

    pub const MAX_SAMPLES: usize = 65_535;

    pub const MAX_TIME: usize = 10_000_000_000;

    pub const MAX_PRIORITY: usize = 127;

    pub const PARAMETERS: usize = 4;

    pub const MAX_TERMINATE: usize = 65_535;

    pub const MAX_SPLIT: usize = 255;

    // document 02, item 7: "back count c, 1..7"
    pub const MAX_BACK: usize = 7;

    // document 02, item 8: "n, 2..255"
    pub const MAX_ASSEMBLE: usize = 255;

    pub const MAX_CONSTANT: usize = 2_147_483_647;

    pub const MAX_TERMS: usize = 8;

    pub const MAX_VALUE_NUMBERS: usize = 64;

    pub const MAX_BRACKETS: usize = 4;

    pub const MAX_MENTIONS: usize = 2;

    // "Last serial given above 99,997,952, or 100,000,000 turns done", "Fewer than 12 bytes left in the trace"
    pub const MAX_SERIAL: u32 = 99_997_952;

    pub const MAX_TURNS: u32 = 100_000_000;

    pub const RECORD_ROOM: usize = 12;

    // "Clocks go up to 32,000,000,000" (document 02, item 1), "transaction 1..100,000,000"
    pub const MAX_CLOCK: u64 = 32_000_000_000;

    pub const MAX_TRANSACTION: u64 = 100_000_000;

    // "at most 5 bytes and 4,294,967,295 (report: 9 bytes)"
    pub const NUMBER_BYTES: usize = 5;

    pub const MAX_NUMBER: u64 = 4_294_967_295;

    // "A number in tape and trace may be any that fits five groups" (document 02, item 1)
    pub const FIVE_GROUPS: u64 = 34_359_738_367;

    pub const REPORT_NUMBER_BYTES: usize = 9;

    pub const MAX_REPORT_NUMBER: u64 = 9_223_372_036_854_775_807;

    // "Has the work buffer 16,384 32-bit numbers? 1. The report buffer 10,240 bytes? 2."
    pub const WORK_NUMBERS: usize = 16_384;

    pub const REPORT_ROOM: usize = 10_240;

    // document 02, item 12: edition 2; the contract of what reads it says that this is the highest
    pub const EDITIONS: usize = 2;

    // The empty model, where decoding begins. Each limit is that of the definitions.
    pub fn empty() -> Model
        ensures nothing { (result.facilities ≡ 0) × (result.storages ≡ 0) × (result.queues ≡ 0) × (result.values ≡ 0) × (result.lists ≡ 0) × (result.counter ≡ 0) × (result.blocks ≡ 0) }
        ensures servers { (Model.MAX_FACILITIES ≡ max_facilities) × (Model.MAX_STORAGES ≡ max_storages) × (Model.MAX_CAPACITY ≡ max_capacity) }
        ensures things { (Model.MAX_QUEUES ≡ max_queues) × (Model.MAX_VALUES ≡ max_values) × (Model.MAX_LISTS ≡ max_lists) }
        ensures program { (Model.MAX_COUNTER ≡ max_counter) × (Model.MAX_BLOCKS ≡ max_blocks) × (Model.MAX_LIVING ≡ max_living) }
        ensures tape { (Model.MAX_SAMPLES ≡ max_samples) × (Model.MAX_TIME ≡ max_time) }
        ensures transactions { (Model.MAX_PRIORITY ≡ max_priority) × (Model.PARAMETERS ≡ parameter_count) }
        ensures operands { (Model.MAX_TERMINATE ≡ max_terminate) × (Model.MAX_SPLIT ≡ max_split) × (Model.MAX_BACK ≡ max_back) }
        ensures families { Model.MAX_ASSEMBLE ≡ max_assemble }
        ensures terms { (Model.MAX_CONSTANT ≡ max_constant) × (Model.MAX_TERMS ≡ max_terms) }
        ensures sums { (Model.MAX_VALUE_NUMBERS ≡ max_value_numbers) × (Model.MAX_BRACKETS ≡ max_brackets) × (Model.MAX_MENTIONS ≡ max_mentions) }
        ensures turns { (Model.MAX_SERIAL ≡ max_serial) × (Model.MAX_TURNS ≡ max_turns) × (Model.RECORD_ROOM ≡ record_room) }
        ensures records { (Model.MAX_CLOCK ≡ max_clock) × (Model.MAX_TRANSACTION ≡ max_transaction) × (Model.FIVE_GROUPS ≡ five_groups) }
        ensures numbers { (Model.NUMBER_BYTES ≡ max_number_bytes) × (Model.MAX_NUMBER ≡ max_number) × (Model.REPORT_NUMBER_BYTES ≡ max_report_number_bytes) × (Model.MAX_REPORT_NUMBER ≡ max_report_number) }
        ensures buffers { (Model.WORK_NUMBERS ≡ work_numbers) × (Model.REPORT_ROOM ≡ report_room) }
    {
        Model {
            facilities: 0,
            storages: 0,
            queues: 0,
            values: 0,
            lists: 0,
            counter: 0,
            blocks: 0,
        }
    }
}
