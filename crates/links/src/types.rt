// The two kinds of number, the colours, what a caller lends, and the answer of a call.
ghost use Rattle.std.specs.Prelude.{◌≡◌, ◌-◌, ◌<◌};
ghost use Rattle.model.specs.Answers.{code_number};
ghost use Rattle.model.specs.Tree.{opp};
ghost use Rattle.links.specs.Colors.{shade};
ghost use Rattle.links.specs.Reads.{SlotOrNone};
ghost use Rattle.links.specs.Sides.{side_of};
ghost use Rattle.links.specs.Outcomes.{refusal_code};
ghost use Rattle.links.specs.Shapes.{Shaped};

// A slot number, from 1 to the capacity. 0 is none, as in the arrays and the answers of the C interface, from which
// these numbers come and into which they go.
#[derive(Clone, Copy, PartialEq, Eq)]
pub struct Slot(pub u32);

impl Slot {
    // Where the numbers of a slot stand in each array.
    pub fn index(self) -> usize
        requires { 0 < self.0 }
        ensures { result ≡ self.0 - 1 }
    {
        self.0 as usize - 1
    }

    // The slot, or none for 0.
    pub fn or_none(self) -> Option<Slot>
        ensures { SlotOrNone result self.0 }
    {
        (self.0 != 0).then_some(self)
    }
}

// A 64-bit key.
#[derive(Clone, Copy, PartialEq, Eq, PartialOrd, Ord)]
pub struct Key(pub u64);

// The colours, in the order of their numbers.
#[derive(Clone, Copy, PartialEq, Eq)]
pub enum Color {
    Red,
    Black,
}

impl From<Color> for u32 {
    ghost from_gives = { λ c n. n ≡ shade c };

    fn from(color: Color) -> u32 {
        color as u32
    }
}

// The two sides of a node.
#[derive(Clone, Copy, PartialEq, Eq)]
pub enum Side {
    Left,
    Right,
}

impl Side {
    // The other one.
    pub fn opposite(self) -> Side
        ensures { side_of result ≡ opp (side_of self) }
    {
        match self {
            Side::Left => Side::Right,
            Side::Right => Side::Left,
        }
    }
}

// The links that a caller lends, to be changed: the near child numbers and the far ones, each slot's parent and colour
// in one number, and the root. Near is left, or right where a function works on the mirrored tree, which is
// `Links(far, near, ..)`. Each has a lifetime of its own, so that one call after another can borrow all of them; and
// they are not named, so that they are taken apart and put together in a line. In a call that stays one a bundle is
// stored and read back; `inline(always)` keeps that from the calls that come once a record (docs/DECISIONS.md, 45).
#[derive(Drop)]
pub struct Links<'n, 'f, 'p, 't>(
    pub &'n mut [u32],
    pub &'f mut [u32],
    pub &'p mut [u32],
    pub &'t mut u32,
);

// The links without the root, to be read; each field has a lifetime of its own, as those of `Links` have.
#[derive(Clone, Copy)]
pub struct Nodes<'n, 'f, 'p> {
    pub near: &'n [u32],
    pub far: &'f [u32],
    pub pc: &'p [u32],
}

// All that a caller lends, to be read: the child numbers, each slot's parent and colour in one number, the keys, and
// the root. It is written out where it is made: behind a function that makes it the proofs no longer see the arrays.
#[derive(Clone, Copy)]
pub struct View<'a> {
    pub left: &'a [u32],
    pub right: &'a [u32],
    pub pc: &'a [u32],
    pub key: &'a [u64],
    pub root: Slot,
}

// All that a caller lends, to be read, where the check has passed.
#[derive(Clone, Copy)]
pub struct Sound<'a> {
    pub view: View<'a>,
    pub ghost shaped: { Shaped view.left.now view.right.now view.pc.now view.key.now view.root.0 },
}

// All that a caller lends, to be changed: left, right, each slot's parent and colour, the keys, the root.
#[derive(Drop)]
pub struct Lent<'l, 'r, 'p, 'k, 't>(
    pub &'l mut [u32],
    pub &'r mut [u32],
    pub &'p mut [u32],
    pub &'k mut [u64],
    pub &'t mut u32,
);

// Why a call is refused.
#[derive(Clone, Copy, PartialEq, Eq, Debug)]
pub enum Refusal {
    Damaged,
    BadSlot,
    AlreadyLinked,
    NotLinked,
    OutOfOrder,
    NullCursor,
    Stale,
    BadRecord,
    BadLength,
    Short,
    BadCode,
}

// The number of a refusal.
impl From<Refusal> for u8 {
    ghost from_gives = { λ why n. n ≡ code_number (refusal_code why) };

    fn from(why: Refusal) -> u8 {
        match why {
            Refusal::Damaged => 1,
            Refusal::BadSlot => 2,
            Refusal::AlreadyLinked => 3,
            Refusal::NotLinked => 4,
            Refusal::OutOfOrder => 5,
            Refusal::NullCursor => 6,
            Refusal::Stale => 7,
            Refusal::BadRecord => 8,
            Refusal::BadLength => 9,
            Refusal::Short => 10,
            Refusal::BadCode => 11,
        }
    }
}

// What a call that is done answers: the nodes on its descent path, and a slot, or 0.
#[derive(Clone, Copy, PartialEq, Eq)]
pub struct Done {
    pub probes: u32,
    pub slot: Slot,
}

// What a call says: done, or why it is refused.
pub type Answer = Result<Done, Refusal>;
