// What the calls answer, as structs of numbers that C and Rust read.

// The answer of an operation: the number of its code, the nodes on its descent path, and the slot.
#[repr(C)]
#[derive(Clone, Copy)]
pub struct Reply {
    pub code: u32,
    pub probes: u32,
    pub slot: u32,
}

// An entry with its code: the slot that holds the key where `occupied` is not 0, else the parent of the empty place,
// on its left side where `on_left` is not 0.
#[repr(C)]
#[derive(Clone, Copy)]
pub struct Place {
    pub code: u32,
    pub occupied: u32,
    pub slot: u32,
    pub on_left: u32,
}

// The code of a whole batch, and how many answers it has.
#[repr(C)]
#[derive(Clone, Copy)]
pub struct BatchReply {
    pub code: u32,
    pub count: u32,
}

// The code and the key of a line.
#[repr(C)]
#[derive(Clone, Copy)]
pub struct LineKey {
    pub code: u32,
    pub key: u64,
}

// The part of a line that is its code: where it starts, and its length.
#[repr(C)]
#[derive(Clone, Copy)]
pub struct LinePart {
    pub start: usize,
    pub length: usize,
}
