// What a command record says.
use links::types::{Key, Slot};

// A command record's fields, as they stand in its bytes.
#[derive(Clone, Copy)]
pub struct Record {
    pub mark: u32,
    pub operation: u32,
    pub kind: u32,
    pub position: Slot,
    pub slot: Slot,
    pub key: Key,
}
