// What the check reads of a slot, and what a pass over all slots counts.
use links::types::{Key, Slot};

// A slot's children and key.
#[derive(Clone, Copy)]
pub struct Node {
    pub left: Slot,
    pub right: Slot,
    pub key: Key,
}

// The number of linked slots, and of unlinked ones with a child.
#[derive(Clone, Copy)]
pub struct Tally {
    pub linked: u32,
    pub strays: u32,
}
