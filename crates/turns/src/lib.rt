// Ports `rotate_left`, `rotate_right` and `replace_with`. A rotation is one function of (near, far): to the left with
// (left, right), to the right with the two swapped.
#![tactic(auto)]

ghost use Rattle.model.specs.Tree.{lft};
ghost use Rattle.theory.specs.Programs.{rotate_in, replace_in};
ghost use Rattle.links.specs.Bundles.{Over, Made, Mirrored, links_in};
ghost use Rattle.links.specs.Sides.{side_of};
ghost use Rattle.turns.specs.Turns.{AdoptPre, Adopted, ReplaceChildPre, ReplacedChild, RotatePre, rotate_at};
ghost use Rattle.turns.specs.Turns.{RotateToPre, ReplaceWithPre};

use links::types::{Links, Side, Slot};

// A child, if there is one, gets a new parent.
pub fn adopt(pc: &mut [u32], child: Slot, parent: Slot)
    requires { AdoptPre pc.old child.0 parent.0 }
    ensures { Adopted pc.old child.0 parent.0 pc.new }
{
    if child.0 != 0 {
        links::set_parent(pc, child, parent);
    }
}

// The child number of the parent that is `old`, or the root where there is no parent, becomes `new`.
// Not a bundle: pc is no part of this, and a bundle would only add the promise that it stays.
pub fn replace_child(
    near: &mut [u32],
    far: &mut [u32],
    root: &mut u32,
    parent: Slot,
    old: Slot,
    new: Slot,
)
    requires { ReplaceChildPre near.old far.old root.old parent.0 new.0 }
    ensures { ReplacedChild
        near.old far.old root.old parent.0 old.0 new.0
        near.new far.new root.new }
{
    if parent.0 == 0 {
        *root = new.0;
    } else {
        let child = links::get(near, parent);
        if child == old {
            links::set(near, parent, new);
        } else {
            links::set(far, parent, new);
        }
    }
}

// The slot goes down to the near side, under its far child.
pub fn rotate(tree: Links, slot: Slot)
    requires { Over RotatePre tree slot.0 }
    ensures { Mirrored (rotate_at slot.0) tree.entry tree.exit }
{
    let Links(near, far, pc, root) = tree;
    let upper = links::get(far, slot);
    let middle = links::get(near, upper);
    links::set(far, slot, middle);
    adopt(pc, middle, slot);
    let parent = links::parent(pc, slot);
    links::set_parent(pc, upper, parent);
    replace_child(near, far, root, parent, slot, upper);
    links::set(near, upper, slot);
    links::set_parent(pc, slot, upper);
}

// The child on the other side takes the slot's place, and the slot goes down to this side.
pub fn rotate_to(tree: Links, side: Side, slot: Slot)
    requires { Over (RotateToPre (side_of side)) tree slot.0 }
    ensures { Made (rotate_in (side_of side) (links_in tree.entry) slot.0) tree.entry tree.exit }
{
    let Links(near, far, pc, root) = tree;
    match side {
        Side::Left => rotate(Links(near, far, pc, root), slot),
        Side::Right => rotate(Links(far, near, pc, root), slot),
    }
}

// An unlinked slot takes the place, the children and the colour of another, which is released.
pub fn replace_with(tree: Links, old: Slot, new: Slot)
    requires { Over ReplaceWithPre tree old.0 new.0 }
    ensures { Made (replace_in (links_in tree.entry) old.0 new.0) tree.entry tree.exit }
{
    let Links(near, far, pc, root) = tree;
    let parent = links::parent(pc, old);
    let color = links::color(pc, old);
    let first = links::get(near, old);
    let second = links::get(far, old);
    replace_child(near, far, root, parent, old, new);
    adopt(pc, first, new);
    adopt(pc, second, new);
    links::set_links(near, far, pc, new, first, second, parent, color);
    links::release(near, far, pc, old);
}
