// Ports `remove`. The node that leaves its place is the slot itself where that lacks a child, else the next one, which
// then takes the slot's place.
#![tactic(auto)]

ghost use Rattle.theory.specs.Programs.{detach, finish_remove, remove_one, remove_two, remove_at};
ghost use Rattle.links.specs.Bundles.{Over, Made, links_in, slots_in};
ghost use Rattle.links.specs.Colors.{shade};
ghost use Rattle.removal.specs.Removals.{DetachPre, FinishPre, number, OnePre, TwoPre, Removable};

use links::types::{Color, Links, Nodes, Slot};

// The only child of a slot, or 0, takes its place, and the slot is released.
#[inline(always)]
pub fn detach(tree: Links, slot: Slot, child: Slot)
    requires { Over DetachPre tree slot.0 child.0 }
    ensures { Made (detach (links_in tree.entry) slot.0 child.0) tree.entry tree.exit }
{
    let Links(near, far, pc, root) = tree;
    let parent = links::parent(pc, slot);
    turns::adopt(pc, child, parent);
    turns::replace_child(near, far, root, parent, slot, child);
    links::release(near, far, pc, slot);
}

// Makes up for a lost node of this colour, in whose place its child, if it had one, now stands beside its sibling.
#[inline(always)]
pub fn finish_remove(tree: Links, color: Color, child: Option<Slot>, sibling: Option<Slot>)
    requires { Over FinishPre tree (shade color) child sibling }
    ensures { Made
        (finish_remove (slots_in tree.entry) (links_in tree.entry) (shade color) (number child) (number sibling))
        tree.entry tree.exit }
{
    let Links(near, far, pc, root) = tree;
    if color == Color::Red {
        return;
    }
    if let Some(child) = child {
        links::set_color(pc, child, Color::Black);
        return;
    }
    let Some(sibling) = sibling else {
        return;
    };
    mending::post_remove(Links(near, far, pc, root), sibling);
}

// Takes out a slot with one child at the most, which takes its place: a number read from the links, where 0 is none.
#[inline(always)]
pub fn remove_one(tree: Links, slot: Slot, child: Slot)
    requires { Over OnePre tree slot.0 child.0 }
    ensures { Made (remove_one (slots_in tree.entry) (links_in tree.entry) slot.0 child.0) tree.entry tree.exit }
{
    let Links(near, far, pc, root) = tree;
    let color = links::color(pc, slot);
    let sibling = mending::sibling(Nodes { near, far, pc }, slot);
    detach(Links(near, far, pc, root), slot, child);
    finish_remove(Links(near, far, pc, root), color, child.or_none(), sibling);
}

// Takes out a slot with two children: `next`, the slot after it, moves into its place.
#[inline(always)]
pub fn remove_two(tree: Links, slot: Slot, next: Slot)
    requires { Over TwoPre tree slot.0 next.0 }
    ensures { Made (remove_two (slots_in tree.entry) (links_in tree.entry) slot.0 next.0) tree.entry tree.exit }
{
    let Links(near, far, pc, root) = tree;
    let child = links::get(far, next);
    let color = links::color(pc, next);
    let sibling = mending::sibling(Nodes { near, far, pc }, next);
    detach(Links(near, far, pc, root), next, child);
    turns::replace_with(Links(near, far, pc, root), slot, next);
    finish_remove(Links(near, far, pc, root), color, child.or_none(), sibling);
}

// Takes out a slot, by the children that it has.
#[inline(always)]
pub fn remove(tree: Links, slot: Slot)
    requires { Over Removable tree slot.0 }
    ensures { Made (remove_at (slots_in tree.entry) (links_in tree.entry) slot.0) tree.entry tree.exit }
{
    let Links(near, far, pc, root) = tree;
    let first = links::get(near, slot);
    let second = links::get(far, slot);
    if first.0 == 0 {
        remove_one(Links(near, far, pc, root), slot, second);
        return;
    }
    if second.0 == 0 {
        remove_one(Links(near, far, pc, root), slot, first);
        return;
    }
    let next = walks::end_of(near, second);
    remove_two(Links(near, far, pc, root), slot, next);
}
