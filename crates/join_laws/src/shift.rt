// How many facilities a part has, and how far its numbers are moved on.
#[derive(Clone, Copy)]
pub struct Shift {
    pub own: u32,
    pub facilities: u32,
    pub storages: u32,
    pub queues: u32,
    pub values: u32,
    pub lists: u32,
    pub blocks: u32,
}
