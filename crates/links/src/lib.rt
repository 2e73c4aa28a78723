// Ports `Link` and `LinkOps`: the numbers of one slot in the lent arrays. No crate above this one indexes an array.
// pc is the crate's parent_color: 2 × the parent + the colour, and 0 in an unlinked slot.
#![tactic(auto)]

pub mod types;

ghost use Rattle.std.specs.Prelude.{◌≡◌, ◌≤◌, length};
ghost use Rattle.model.specs.Branch.{pick as choice};
ghost use Rattle.model.specs.Lent.{at};
ghost use Rattle.links.specs.Colors.{shade};
ghost use Rattle.links.specs.Reads.{SlotOf, SlotIn, GetPre, Got, ParentPre, GotParent, GotColor, GotLinked};
ghost use Rattle.links.specs.Reads.{GotRed};
ghost use Rattle.links.specs.Writes.{SetPre, Set, SetParentColorPre, SetParentColor, SetParentPre, SetParent};
ghost use Rattle.links.specs.Writes.{SetColorPre, SetColor, SetLinksPre, SetLinks, Released, SetKey};

use types::{Color, Key, Slot};

// The most slots.
pub const CAPACITY: usize = 2048;

// The most nodes on a way down a well-formed tree of as many slots.
pub const DEPTH: u32 = 22;

// The child of a slot, by the left links or the right ones.
pub fn get(links: &[u32], slot: Slot) -> Slot
    requires { GetPre links.now slot.0 }
    ensures { Got links.now slot.0 result.0 }
{
    Slot(links[slot.index()])
}

// The child of a slot becomes `child`.
pub fn set(links: &mut [u32], slot: Slot, child: Slot)
    requires { SetPre links.old slot.0 child.0 }
    ensures { Set links.old slot.0 child.0 links.new }
{
    links[slot.index()] = child.0;
}

// The parent of a slot, or 0.
pub fn parent(pc: &[u32], slot: Slot) -> Slot
    requires { ParentPre pc.now slot.0 }
    ensures { GotParent pc.now slot.0 result.0 }
{
    Slot(pc[slot.index()] / 2)
}

// The colour of a slot.
pub fn color(pc: &[u32], slot: Slot) -> Color
    requires { SlotOf pc.now slot.0 }
    ensures { GotColor pc.now slot.0 (shade result) }
{
    if pc[slot.index()] % 2 == 0 {
        Color::Red
    } else {
        Color::Black
    }
}

// Whether there is a slot and it is red.
pub fn is_red(pc: &[u32], slot: Slot) -> bool
    requires { slot.0 ≤ length pc.now }
    ensures { GotRed pc.now slot.0 result }
{
    if slot.0 == 0 {
        return false;
    }
    color(pc, slot) == Color::Red
}

// Whether a slot is linked.
pub fn is_linked(pc: &[u32], slot: Slot) -> bool
    requires { SlotOf pc.now slot.0 }
    ensures { GotLinked pc.now slot.0 result }
{
    pc[slot.index()] != 0
}

// The parent and the colour of a slot.
pub fn set_parent_color(pc: &mut [u32], slot: Slot, parent: Slot, color: Color)
    requires { SetParentColorPre pc.old slot.0 parent.0 }
    ensures { SetParentColor pc.old slot.0 parent.0 (shade color) pc.new }
{
    pc[slot.index()] = 2 * parent.0 + u32::from(color);
}

// The parent of a slot; the colour stays.
pub fn set_parent(pc: &mut [u32], slot: Slot, parent: Slot)
    requires { SetParentPre pc.old slot.0 parent.0 }
    ensures { SetParent pc.old slot.0 parent.0 pc.new }
{
    let color = pc[slot.index()] % 2;
    pc[slot.index()] = 2 * parent.0 + color;
}

// The colour of a slot; the parent stays.
pub fn set_color(pc: &mut [u32], slot: Slot, color: Color)
    requires { SetColorPre pc.old slot.0 }
    ensures { SetColor pc.old slot.0 (shade color) pc.new }
{
    let parent = pc[slot.index()] / 2;
    pc[slot.index()] = 2 * parent + u32::from(color);
}

// The children, the parent and the colour of a slot. No bundle: the root is no part of this.
pub fn set_links(
    left: &mut [u32],
    right: &mut [u32],
    pc: &mut [u32],
    slot: Slot,
    first: Slot,
    second: Slot,
    parent: Slot,
    color: Color,
)
    requires { SetLinksPre left.old right.old pc.old slot.0 first.0 second.0 parent.0 }
    ensures { SetLinks left.old right.old pc.old
        slot.0 first.0 second.0 parent.0 (shade color)
        left.new right.new pc.new }
{
    set(left, slot, first);
    set(right, slot, second);
    set_parent_color(pc, slot, parent, color);
}

// The slot becomes unlinked. No bundle: the root is no part of this.
pub fn release(left: &mut [u32], right: &mut [u32], pc: &mut [u32], slot: Slot)
    requires { SlotIn left.old right.old pc.old slot.0 }
    ensures { Released left.old right.old pc.old slot.0
        left.new right.new pc.new }
{
    set_links(left, right, pc, slot, Slot(0), Slot(0), Slot(0), Color::Red);
}

// The key of a slot.
pub fn key_of(key: &[u64], slot: Slot) -> Key
    requires { SlotOf key.now slot.0 }
    ensures { result.0 ≡ at key.now slot.0 }
{
    Key(key[slot.index()])
}

// The key of a slot becomes `value`.
pub fn set_key(key: &mut [u64], slot: Slot, value: Key)
    requires { SlotOf key.old slot.0 }
    ensures { SetKey key.old slot.0 value.0 key.new }
{
    key[slot.index()] = value.0;
}

// The number of a slot in an array, whatever it is.
pub fn number_at(numbers: &[u32], slot: Slot) -> u32
    requires { SlotOf numbers.now slot.0 }
    ensures { result ≡ at numbers.now slot.0 }
{
    numbers[slot.index()]
}

// One of two slots, without a branch.
pub fn pick(first: bool, a: Slot, b: Slot) -> Slot
    ensures { result.0 ≡ choice first a.0 b.0 }
{
    if first { a } else { b }
}
