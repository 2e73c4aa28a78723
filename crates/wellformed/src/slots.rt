// One slot of the check: what a child number names, and a node's children and key.
ghost use Rattle.std.specs.Prelude.{◌≡◌, ◌≤◌};
ghost use Rattle.model.specs.Limits.{capacity_limit};
ghost use Rattle.model.specs.Check.{differ as apart};
ghost use Rattle.theory.specs.Quick.{is_between};
ghost use Rattle.wellformed.specs.Checks.{Kinship, NodePre, NodeIn, NodeAt};
ghost use Rattle.wellformed.specs.Views.{Seen};

use crate::types::Node;
use links::types::{Color, Key, Slot, View};

// The colour of the child that a child number of a slot names, if it names one.
pub fn kin_of(pc: &[u32], parent: Slot, slot: Slot) -> Option<Color>
    requires { parent.0 ≤ capacity_limit }
    ensures { Kinship result pc.now parent.0 slot.0 }
{
    if slot.0 == 0 {
        return None;
    }
    let Some(&mark) = pc.get(slot.index()) else {
        return None;
    };
    if mark == 2 * parent.0 {
        return Some(Color::Red);
    }
    if mark == 2 * parent.0 + 1 {
        Some(Color::Black)
    } else {
        None
    }
}

// Whether two children differ, or are both 0.
pub fn differ(a: Slot, b: Slot) -> bool
    ensures { result ≡ apart a.0 b.0 }
{
    (a != b) | (a == Slot(0))
}

// Whether a key is at least the one and at most the other.
pub fn between(low: Key, k: Key, high: Key) -> bool
    ensures { result ≡ is_between low.0 k.0 high.0 }
{
    (low <= k) & (k <= high)
}

// A slot's children and key, whatever they are.
pub fn node_in(view: &View, slot: Slot) -> Node
    requires { Seen NodePre view.now slot.0 }
    ensures { Seen NodeIn view.now slot.0 result }
{
    Node {
        left: Slot(links::number_at(view.left, slot)),
        right: Slot(links::number_at(view.right, slot)),
        key: links::key_of(view.key, slot),
    }
}

// The same, if the children differ, or are both 0, and the key lies between the two.
pub fn node_at(view: &View, slot: Slot, low: Key, high: Key) -> Option<Node>
    requires { Seen NodePre view.now slot.0 }
    ensures { Seen NodeAt view.now slot.0 low.0 high.0 result }
{
    let node = node_in(view, slot);
    let apart = differ(node.left, node.right);
    let fits = between(low, node.key, high);
    if apart & fits { Some(node) } else { None }
}
