// Ports `find_internal`, `lower_bound_internal`, `upper_bound_internal`, the place of `insert`, and `entry`.
#![tactic(auto)]

pub mod types;

ghost use Rattle.std.specs.Prelude.{◌≡◌, ◌≤◌, length};
ghost use Rattle.links.specs.Sides.{side_of};
ghost use Rattle.descent.specs.Bounds.{kind_of, key_in};
ghost use Rattle.descent.specs.Searches.{Seen, Searchable, Sloping, childless, turn_of, met_of};
ghost use Rattle.descent.specs.Searches.{FoundPathBy, FoundEdge, FoundKey, FoundBound, FoundPlace, FoundEntry};

use links::types::{Key, Side, Slot, View};
use std::ops::Bound;
use types::{Cursor, Entry, InsertCursor, Met, Path, Sought};

// Whether both children are missing.
fn is_leaf(first: Slot, second: Slot) -> bool
    ensures { result ≡ childless first.0 second.0 }
{
    first.0 == 0 && second.0 == 0
}

// Goes left at a node whose key passes the test, else right, until a child is missing. Both children are read at once,
// so that the next step waits for no branch; a leaf ends it early. The picks take 0 for none, where an Option would
// need a branch; the probes are counted by hand, since their number is part of the answer.
pub fn path<F: Fn(Key) -> bool>(view: View, goes_left: F) -> Path
    requires tree { Seen Searchable view }
    requires calls { F.IsAlwaysCallable goes_left }
    ensures { Seen FoundPathBy view.entry (F.post goes_left) result }
{
    let mut here = view.root;
    let mut last = Slot(0);
    let mut under = Slot(0);
    let mut over = Slot(0);
    let mut probes = 0u32;
    while let Some(node) = here.or_none() {
        let held = links::key_of(view.key, node);
        let first = links::get(view.left, node);
        let second = links::get(view.right, node);
        let leftward = goes_left(held);
        last = node;
        probes += 1;
        over = links::pick(leftward, node, over);
        under = links::pick(leftward, under, node);
        here = links::pick(leftward, first, second);
        if is_leaf(first, second) {
            break;
        }
    }
    Path {
        last,
        under,
        over,
        probes,
    }
}

// Goes by the links of one side alone: to the first slot, or to the last. It is not walks' `end_of`, since it counts
// its probes and its tree may be empty.
pub fn edge(near: &[u32], root: Slot) -> Met
    requires { Sloping near.now root.0 }
    ensures { FoundEdge near.now root.0 result }
{
    let mut here = root;
    let mut last = Slot(0);
    let mut probes = 0u32;
    while let Some(node) = here.or_none() {
        last = node;
        probes += 1;
        here = links::get(near, node);
    }
    Met {
        slot: last,
        last,
        probes,
    }
}

// As `path` to the left of the keys over k, but stops at an equal one.
pub fn find(view: View, k: Key) -> Met
    requires { Seen Searchable view }
    ensures { Seen FoundKey view.entry k.0 result }
{
    let mut here = view.root;
    let mut last = Slot(0);
    let mut probes = 0u32;
    while let Some(node) = here.or_none() {
        let held = links::key_of(view.key, node);
        let first = links::get(view.left, node);
        let second = links::get(view.right, node);
        last = node;
        probes += 1; // a node with the key is looked at too
        if held == k {
            break;
        }
        here = links::pick(k < held, first, second);
        if is_leaf(first, second) {
            break;
        }
    }
    Met {
        slot: here,
        last,
        probes,
    }
}

// The last turn of a path to the left, which is the first node whose key passes, or to the right, the last before it.
fn turned(path: Path, side: Side) -> Met
    ensures { result ≡ met_of (turn_of (side_of side) path) path.last.0 path.probes }
{
    let slot = match side {
        Side::Left => path.over,
        Side::Right => path.under,
    };
    Met {
        slot,
        last: path.last,
        probes: path.probes,
    }
}

// For the left side the first slot within a lower bound, for the right side the last one within an upper bound. An arm
// for each, so that a path keeps the one turn that is asked for.
#[inline(always)]
pub fn bound(view: View, side: Side, bound: Bound<Key>) -> Met
    requires { Seen Searchable view }
    ensures { Seen FoundBound view.entry (side_of side) (kind_of bound) (key_in bound) result }
{
    match (bound, side) {
        (Bound::Unbounded, Side::Left) => edge(view.left, view.root),
        (Bound::Unbounded, Side::Right) => edge(view.right, view.root),
        (Bound::Included(k), Side::Left) => turned(path(view, |held| k <= held), Side::Left),
        (Bound::Included(k), Side::Right) => turned(path(view, |held| k < held), Side::Right),
        (Bound::Excluded(k), Side::Left) => turned(path(view, |held| k < held), Side::Left),
        (Bound::Excluded(k), Side::Right) => turned(path(view, |held| k <= held), Side::Right),
    }
}

// The empty place under the last node of a descent for k.
pub fn place(key: &[u64], last: Slot, k: Key) -> InsertCursor
    requires { last.0 ≤ length key.now }
    ensures { FoundPlace key.now last.0 k.0 result }
{
    let leftward = last
        .or_none()
        .is_some_and(|slot| k < links::key_of(key, slot));
    let side = if leftward { Side::Left } else { Side::Right };
    InsertCursor { parent: last, side }
}

// The slot where find halts, or the place where it ends.
pub fn entry(view: View, k: Key) -> Sought
    requires { Seen Searchable view }
    ensures { Seen FoundEntry view.entry k.0 result }
{
    let met = find(view, k);
    let entry = if met.slot.0 == 0 {
        Entry::Vacant(place(view.key, met.last, k))
    } else {
        Entry::Occupied(Cursor { slot: met.slot })
    };
    Sought {
        entry,
        probes: met.probes,
    }
}
