// What is found beside a position.
use descent::types::InsertCursor;
use links::types::Slot;

// An empty place, and the slots before and after it in order, each 0 where there is none.
#[derive(Clone, Copy)]
pub struct Gap {
    pub earlier: Slot,
    pub later: Slot,
    pub place: InsertCursor,
}
