// Ports `first_child`, `last_child`, `next` and `prev`, the last two as a cursor moves: from position 0 they lead to
// the first slot and to the last. Each pair is one function: of one child array, or of a view and a side.
#![tactic(auto)]

ghost use Rattle.model.specs.Tree.{lft};
ghost use Rattle.walks.specs.Ends.{EndPre, EndPost, FrontPre, FrontPost, ClimbPre, ClimbPost};
ghost use Rattle.links.specs.Sides.{side_of};
ghost use Rattle.walks.specs.Steps.{Linked, StepPre, StepPost, Position, WalkPre, Walked, Adjoined};

use links::types::{Side, Slot, View};

// The last slot of the chain of links from a slot: first_child by the left links, last_child by the right ones.
pub fn end_of(links: &[u32], slot: Slot) -> Slot
    requires { EndPre links.now slot.0 }
    ensures { EndPost links.now slot.0 result.0 }
{
    let mut here = slot;
    while let Some(child) = links::get(links, here).or_none() {
        here = child;
    }
    here
}

// The same from the root of a tree that may be empty: then 0.
pub fn front(links: &[u32], root: Slot) -> Slot
    requires { FrontPre links.now root.0 }
    ensures { FrontPost links.now root.0 result.0 }
{
    if root.0 == 0 {
        return Slot(0);
    }
    end_of(links, root)
}

// The parent of the first slot, from this one up, that is a child by these links; or 0.
pub fn climb(links: &[u32], pc: &[u32], slot: Slot) -> Slot
    requires { ClimbPre links.now pc.now slot.0 }
    ensures { ClimbPost links.now pc.now slot.0 result.0 }
{
    let mut here = slot;
    while let Some(parent) = links::parent(pc, here).or_none() {
        if links::get(links, parent) == here {
            return parent;
        }
        here = parent;
    }
    Slot(0)
}

// The neighbour of a slot on the near side, or 0.
#[inline(always)]
pub fn step(near: &[u32], far: &[u32], pc: &[u32], slot: Slot) -> Slot
    requires { StepPre near.now far.now pc.now slot.0 }
    ensures { StepPost near.now far.now pc.now slot.0 result.0 }
{
    let child = links::get(near, slot);
    if child.0 != 0 {
        end_of(far, child)
    } else {
        climb(far, pc, slot)
    }
}

// The slot that comes next to a position on the left, or 0; from 0 the first on the way there. In the mirrored view
// left is right.
#[inline(always)]
pub fn walk(view: View, position: Slot) -> Slot
    requires { Linked WalkPre view position.0 }
    ensures { Linked Walked view.entry position.0 result.0 }
{
    if position.0 == 0 {
        return front(view.right, view.root);
    }
    step(view.left, view.right, view.pc, position)
}

// The slot after a position, on the right, or the one before it, on the left; or 0.
#[inline(always)]
pub fn neighbour(view: View, side: Side, position: Slot) -> Slot
    requires { Linked (Position lft) view position.0 }
    ensures { Linked (Adjoined (side_of side)) view.entry position.0 result.0 }
{
    match side {
        Side::Left => walk(view, position),
        Side::Right => {
            let mirrored = View {
                left: view.right,
                right: view.left,
                ..view
            };
            walk(mirrored, position)
        }
    }
}
