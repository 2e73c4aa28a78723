// Ports the loop of `remove`: a place lacks a black node, and the climb makes up for it. The two halves are one
// function of (near, far), where the place is on the near side of its parent, and its sibling on the far one.
#![tactic(auto)]

ghost use Rattle.theory.specs.Programs.{far_turn, near_turn, post_remove};
ghost use Rattle.theory.specs.Rounds.{lower_end, sink_at, sink_end};
ghost use Rattle.links.specs.Bundles.{Over, Among, Made, Mirrored, links_in, slots_in};
ghost use Rattle.links.specs.Colors.{shade};
ghost use Rattle.links.specs.Reads.{SlotIn};
ghost use Rattle.mending.specs.Passes.{Sibling, RedChild, PassPre, Passed};
ghost use Rattle.mending.specs.Turns.{FarTurnPre, NearTurnPre, LowerEndPre, RedTurnPre, RedTurnedIn};
ghost use Rattle.mending.specs.Climbs.{SinkAtPre, Lacking, SinkEndPre};

use links::types::{Color, Links, Nodes, Slot};

// The other child of a slot's parent, if it has one; none for the root.
pub fn sibling(nodes: Nodes, slot: Slot) -> Option<Slot>
    requires { Among SlotIn nodes slot.0 }
    ensures { Among Sibling nodes.entry slot.0 result }
{
    let Nodes { near, far, pc } = nodes;
    let parent = links::parent(pc, slot);
    if parent.0 == 0 {
        return None;
    }
    let first = links::get(near, parent);
    if first == slot {
        links::get(far, parent).or_none()
    } else {
        first.or_none()
    }
}

// Whether a slot has a red child.
pub fn has_red_child(nodes: Nodes, slot: Slot) -> bool
    requires { Among SlotIn nodes slot.0 }
    ensures { Among RedChild nodes.entry slot.0 result }
{
    let Nodes { near, far, pc } = nodes;
    let first = links::get(near, slot);
    let second = links::get(far, slot);
    links::is_red(pc, first) || links::is_red(pc, second)
}

// The sibling at which the climb goes on after this one, or none where it ends here.
pub fn pass(nodes: Nodes, slot: Slot) -> Option<Slot>
    requires { Among PassPre nodes slot.0 }
    ensures { Among Passed nodes.entry slot.0 result }
{
    if links::is_red(nodes.pc, slot) || has_red_child(nodes, slot) {
        return None;
    }
    let parent = links::parent(nodes.pc, slot);
    if links::is_red(nodes.pc, parent) {
        return None;
    }
    sibling(nodes, parent)
}

// The sibling takes its parent's colour and goes up over it; the parent and the outer child turn black.
pub fn far_turn(tree: Links, sibling: Slot, parent: Slot)
    requires { Over FarTurnPre tree sibling.0 parent.0 }
    ensures { Mirrored (λ d k. far_turn d k sibling.0 parent.0) tree.entry tree.exit }
{
    let Links(near, far, pc, root) = tree;
    let color = links::color(pc, parent);
    links::set_color(pc, sibling, color);
    links::set_color(pc, parent, Color::Black);
    let outer = links::get(far, sibling);
    links::set_color(pc, outer, Color::Black);
    turns::rotate(Links(near, far, pc, root), parent);
}

// The red inner child goes up over the sibling first.
pub fn near_turn(tree: Links, sibling: Slot, inner: Slot)
    requires { Over NearTurnPre tree sibling.0 inner.0 }
    ensures { Mirrored (λ d k. near_turn d k sibling.0 inner.0) tree.entry tree.exit }
{
    let Links(near, far, pc, root) = tree;
    links::set_color(pc, inner, Color::Black);
    links::set_color(pc, sibling, Color::Red);
    turns::rotate(Links(far, near, pc, root), sibling);
    let upper = links::parent(pc, sibling);
    let parent = links::parent(pc, upper);
    far_turn(Links(near, far, pc, root), upper, parent);
}

// The end of the climb at a black sibling: by rotations, or the sibling turns red and its parent black.
pub fn lower_end(tree: Links, sibling: Slot, parent: Slot)
    requires { Over LowerEndPre tree sibling.0 parent.0 }
    ensures { Mirrored (λ d k. lower_end d k sibling.0 parent.0) tree.entry tree.exit }
{
    let Links(near, far, pc, root) = tree;
    let outer = links::get(far, sibling);
    if links::is_red(pc, outer) {
        far_turn(Links(near, far, pc, root), sibling, parent);
        return;
    }
    let inner = links::get(near, sibling);
    if links::is_red(pc, inner) {
        near_turn(Links(near, far, pc, root), sibling, inner);
        return;
    }
    links::set_color(pc, sibling, Color::Red);
    links::set_color(pc, parent, Color::Black);
}

// A red sibling turns black and goes up over its parent, which turns red; the answer is the new sibling.
pub fn red_turn(tree: Links, sibling: Slot, parent: Slot) -> Slot
    requires { Over RedTurnPre tree sibling.0 parent.0 }
    ensures { RedTurnedIn tree.entry sibling.0 parent.0 tree.exit result.0 }
{
    let Links(near, far, pc, root) = tree;
    links::set_color(pc, sibling, Color::Black);
    links::set_color(pc, parent, Color::Red);
    turns::rotate(Links(near, far, pc, root), parent);
    let below = links::get(near, sibling);
    links::get(far, below)
}

// The end of the climb at a sibling of either colour: a red one gives way to a black one first.
pub fn sink_at(tree: Links, sibling: Slot, parent: Slot)
    requires { Over SinkAtPre tree sibling.0 parent.0 }
    ensures { Mirrored (λ d k. sink_at d k sibling.0 parent.0) tree.entry tree.exit }
{
    let Links(near, far, pc, root) = tree;
    if links::is_red(pc, sibling) {
        let new = red_turn(Links(near, far, pc, root), sibling, parent);
        let above = links::parent(pc, new);
        lower_end(Links(near, far, pc, root), new, above);
    } else {
        lower_end(Links(near, far, pc, root), sibling, parent);
    }
}

// The end of the climb at a sibling on either side of its parent, which tells near from far for the rest.
pub fn sink_end(tree: Links, slot: Slot)
    requires { Over SinkEndPre tree slot.0 }
    ensures { Made (sink_end (links_in tree.entry) slot.0) tree.entry tree.exit }
{
    let Links(near, far, pc, root) = tree;
    let parent = links::parent(pc, slot);
    let first = links::get(near, parent);
    if first == slot {
        sink_at(Links(far, near, pc, root), slot, parent);
    } else {
        sink_at(Links(near, far, pc, root), slot, parent);
    }
}

// The climb from the sibling of a place that lacks a black node.
pub fn post_remove(tree: Links, slot: Slot)
    requires { Over Lacking tree slot.0 }
    ensures { Made (post_remove (slots_in tree.entry) (links_in tree.entry) slot.0) tree.entry tree.exit }
{
    let Links(near, far, pc, root) = tree;
    let mut here = slot;
    while let Some(next) = pass(Nodes { near, far, pc }, here) {
        links::set_color(pc, here, Color::Red);
        here = next;
    }
    sink_end(Links(near, far, pc, root), here);
}
