// Ports `clear_recurse` and `clear`. The depth left falls at each call; a well-formed tree is no deeper than
// links::DEPTH, so that all of it is reached.
#![tactic(auto)]

ghost use Rattle.model.specs.Limits.{depth_limit};
ghost use Rattle.theory.specs.Places.{Bounded};
ghost use Rattle.theory.specs.Programs.{clear_all};
ghost use Rattle.links.specs.Bundles.{Over, Made, links_in};
ghost use Rattle.clearing.specs.Clearing.{Cleared};

use links::types::{Links, Slot};

// The slots from this one down, to the depth, become unlinked: the left subtree, then the right, then the node itself.
// Not a bundle: the root is no part of this, and a bundle would only add the promise that it stays.
pub fn clear_recurse(left: &mut [u32], right: &mut [u32], pc: &mut [u32], slot: Slot, depth: u32)
    requires { Bounded left.old right.old pc.old slot.0 }
    ensures { Cleared depth left.old right.old pc.old slot.0
        left.new right.new pc.new }
{
    if depth == 0 || slot.0 == 0 {
        return;
    }
    let first = links::get(left, slot);
    clear_recurse(left, right, pc, first, depth - 1);
    let second = links::get(right, slot);
    clear_recurse(left, right, pc, second, depth - 1);
    links::release(left, right, pc, slot);
}

// The whole tree becomes unlinked, and the root none.
pub fn clear(tree: Links)
    requires { Over Bounded tree }
    ensures { Made (clear_all depth_limit (links_in tree.entry)) tree.entry tree.exit }
{
    let Links(left, right, pc, root) = tree;
    let top = *root;
    clear_recurse(left, right, pc, Slot(top), links::DEPTH);
    *root = 0;
}
