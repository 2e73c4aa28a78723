// Ports `post_insert`, `insert_left`, `insert_right` and `insert_root`. The two halves of `post_insert` are one
// function of (near, far), where the parent is the near child of its own; and a slot is hung on the left with
// (left, right), on the right with the two swapped.
#![tactic(auto)]

ghost use Rattle.std.specs.Prelude.{◌≤◌, length};
ghost use Rattle.model.specs.Tree.{rgt};
ghost use Rattle.theory.specs.Programs.{post_insert};
ghost use Rattle.links.specs.Bundles.{Over, Among, Made, Mirrored, links_in, slots_in};
ghost use Rattle.links.specs.Colors.{shade};
ghost use Rattle.links.specs.Sides.{side_of};
ghost use Rattle.hanging.specs.Recolors.{RedOrNone, UnclePre, RedUncle, PaintPre, Painted, RecolorPre, Recolored};
ghost use Rattle.hanging.specs.Climbs.{SettlePre, settle_at, FinishAtPre, finish_at, FinishPre, finish_in};
ghost use Rattle.hanging.specs.Climbs.{PostInsertPre};
ghost use Rattle.hanging.specs.Inserts.{HangPre, HangPost, Vacant, VacantBelow, InsertedIn};

use links::types::{Color, Links, Nodes, Side, Slot};

// The slot itself where it is red.
pub fn red_or_none(pc: &[u32], slot: Slot) -> Option<Slot>
    requires { slot.0 ≤ length pc.now }
    ensures { RedOrNone pc.now slot.0 result }
{
    links::is_red(pc, slot).then_some(slot)
}

// The sibling of the slot's parent where both are red.
pub fn red_uncle(nodes: Nodes, slot: Slot) -> Option<Slot>
    requires { Among UnclePre nodes slot.0 }
    ensures { Among RedUncle nodes.entry slot.0 result }
{
    let Nodes { near, far, pc } = nodes;
    let parent = links::parent(pc, slot);
    if !links::is_red(pc, parent) {
        return None;
    }
    let grand = links::parent(pc, parent);
    let first = links::get(near, grand);
    if first == parent {
        let second = links::get(far, grand);
        red_or_none(pc, second)
    } else {
        red_or_none(pc, first)
    }
}

// The slot turns red, but black where it is the root.
pub fn paint_top(pc: &mut [u32], slot: Slot)
    requires { PaintPre pc.old slot.0 }
    ensures { Painted pc.old slot.0 pc.new }
{
    let parent = links::parent(pc, slot);
    if parent.0 == 0 {
        links::set_color(pc, slot, Color::Black);
    } else {
        links::set_color(pc, slot, Color::Red);
    }
}

// The parent and the uncle turn black and the one above them red, which is handed back.
pub fn recolor(pc: &mut [u32], slot: Slot, uncle: Slot) -> Slot
    requires { RecolorPre pc.old slot.0 uncle.0 }
    ensures { Recolored pc.old slot.0 uncle.0 pc.new result.0 }
{
    let parent = links::parent(pc, slot);
    links::set_color(pc, parent, Color::Black);
    let grand = links::parent(pc, parent);
    paint_top(pc, grand);
    links::set_color(pc, uncle, Color::Black);
    grand
}

// The parent turns black and the one above it red, and that one is rotated down to the far side.
pub fn settle(tree: Links, slot: Slot)
    requires { Over SettlePre tree slot.0 }
    ensures { Mirrored (settle_at slot.0) tree.entry tree.exit }
{
    let Links(near, far, pc, root) = tree;
    let parent = links::parent(pc, slot);
    links::set_color(pc, parent, Color::Black);
    let grand = links::parent(pc, parent);
    links::set_color(pc, grand, Color::Red);
    turns::rotate(Links(far, near, pc, root), grand);
}

// The last rotations: a slot on the far side of its parent is first rotated over it.
pub fn finish_at(tree: Links, slot: Slot, parent: Slot)
    requires { Over FinishAtPre tree slot.0 parent.0 }
    ensures { Mirrored (finish_at slot.0 parent.0) tree.entry tree.exit }
{
    let Links(near, far, pc, root) = tree;
    let outer = links::get(near, parent);
    if outer == slot {
        settle(Links(near, far, pc, root), slot);
    } else {
        turns::rotate(Links(near, far, pc, root), parent);
        settle(Links(near, far, pc, root), parent);
    }
}

// The end of the climb at a slot with no red uncle.
pub fn finish(tree: Links, slot: Slot)
    requires { Over FinishPre tree slot.0 }
    ensures { Made (finish_in (links_in tree.entry) slot.0) tree.entry tree.exit }
{
    let Links(near, far, pc, root) = tree;
    let parent = links::parent(pc, slot);
    if !links::is_red(pc, parent) {
        return;
    }
    let grand = links::parent(pc, parent);
    let first = links::get(near, grand);
    if first == parent {
        finish_at(Links(near, far, pc, root), slot, parent);
    } else {
        finish_at(Links(far, near, pc, root), slot, parent);
    }
}

// The climb from a red slot that may hang under a red parent.
#[inline(always)]
pub fn post_insert(tree: Links, slot: Slot)
    requires { Over PostInsertPre tree slot.0 }
    ensures { Made (post_insert (slots_in tree.entry) (links_in tree.entry) slot.0) tree.entry tree.exit }
{
    let Links(near, far, pc, root) = tree;
    let mut here = slot;
    while let Some(uncle) = red_uncle(Nodes { near, far, pc }, here) {
        here = recolor(pc, here, uncle);
    }
    finish(Links(near, far, pc, root), here);
}

// A red slot without children becomes the near child of a parent.
// Not a bundle: the root is no part of this, and a bundle would only add the promise that it stays.
pub fn hang(near: &mut [u32], far: &mut [u32], pc: &mut [u32], parent: Slot, slot: Slot)
    requires { HangPre near.old far.old pc.old parent.0 slot.0 }
    ensures { HangPost
        near.old far.old pc.old parent.0 slot.0
        near.new far.new pc.new }
{
    links::set_links(near, far, pc, slot, Slot(0), Slot(0), parent, Color::Red);
    links::set(near, parent, slot);
}

// A slot becomes the child on this side of a parent that has none there.
pub fn insert_below(tree: Links, parent: Slot, side: Side, slot: Slot)
    requires { Over VacantBelow tree parent.0 (side_of side) slot.0 }
    ensures { InsertedIn tree.entry parent.0 (side_of side) slot.0 tree.exit }
{
    let Links(near, far, pc, root) = tree;
    match side {
        Side::Left => hang(near, far, pc, parent, slot),
        Side::Right => hang(far, near, pc, parent, slot),
    }
    post_insert(Links(near, far, pc, root), slot);
}

// The first slot of an empty tree: its black root.
pub fn insert_root(tree: Links, slot: Slot)
    requires { Over Vacant tree 0 rgt slot.0 }
    ensures { InsertedIn tree.entry 0 rgt slot.0 tree.exit }
{
    let Links(near, far, pc, root) = tree;
    links::set_links(near, far, pc, slot, Slot(0), Slot(0), Slot(0), Color::Black);
    *root = slot.0;
}

// A slot at the empty place on the named side of a parent; without a parent, as the first of an empty tree.
#[inline(always)]
pub fn insert_at(tree: Links, parent: Slot, side: Side, slot: Slot)
    requires { Over Vacant tree parent.0 (side_of side) slot.0 }
    ensures { InsertedIn tree.entry parent.0 (side_of side) slot.0 tree.exit }
{
    let Links(near, far, pc, root) = tree;
    if parent.0 == 0 {
        insert_root(Links(near, far, pc, root), slot);
    } else {
        insert_below(Links(near, far, pc, root), parent, side, slot);
    }
}
