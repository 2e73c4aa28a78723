// What a descent from the root tells.
use links::types::{Side, Slot};

// A descent down to a missing child: its last node, the last nodes at which it turned right and left, each 0 where
// there is none, and how many nodes it has looked at. 0 stays a number here, as it is in the lent arrays: the turns are
// picked without a branch.
#[derive(Clone, Copy)]
pub struct Path {
    pub last: Slot,
    pub under: Slot,
    pub over: Slot,
    pub probes: u32,
}

// The slot that a descent looks for, or 0; its last node, or 0; and how many nodes it has looked at. 0 stays a number
// here: the slots are picked without a branch, and a cursor stores them and hands them out so.
#[derive(Clone, Copy)]
pub struct Met {
    pub slot: Slot,
    pub last: Slot,
    pub probes: u32,
}

// A position: a slot, or 0.
#[derive(Clone, Copy, PartialEq, Eq)]
pub struct Cursor {
    pub slot: Slot,
}

// An empty place: the parent, 0 in an empty tree, and on which side of it.
#[derive(Clone, Copy, PartialEq, Eq)]
pub struct InsertCursor {
    pub parent: Slot,
    pub side: Side,
}

// What is there for a key: a slot that has it, or the empty place where it belongs.
#[derive(Clone, Copy, PartialEq, Eq)]
pub enum Entry {
    Occupied(Cursor),
    Vacant(InsertCursor),
}

// An entry, and how many nodes the descent to it has looked at.
#[derive(Clone, Copy)]
pub struct Sought {
    pub entry: Entry,
    pub probes: u32,
}
