// The library: the twelve single calls over arrays that the caller lends, `entry`, and or_insert with an entry. Each
// call first checks the arrays, then refuses in the order of the codes, then works; a refused call changes nothing.
// `cursors` moves a cursor in place; `nodes` has first_child and last_child over link records. The pairs for both sides
// keep their names, which are the library's, and are one line each over one function with a `Side`.
#![tactic(auto)]

pub mod cursors;
pub mod nodes;
pub mod types;

ghost use Rattle.std.specs.Prelude.{◌≡◌};
ghost use Rattle.model.specs.Lent.{lent};
ghost use Rattle.model.specs.Check.{check as accepts};
ghost use Rattle.model.specs.Commands as command;
ghost use Rattle.model.specs.Operations.{perform, entry_call, or_insert_call};
ghost use Rattle.links.specs.Bundles.{viewed, Does, Relinks, Tells};
ghost use Rattle.links.specs.Sides.{side_of};
ghost use Rattle.descent.specs.Entries.{entry_told};
ghost use Rattle.queries.specs.Queries.{bound_command, step_command};
ghost use Rattle.changes.specs.Changes.{insert_next};
ghost use Rattle.index.specs.Tests.{Tested};
ghost use Rattle.index.specs.Found.{found_told};

use descent::types::Entry;
use links::types::{Answer, Key, Lent, Links, Refusal, Side, Slot, View};

// Whether the arrays are well formed: W1 to W6.
pub fn check(view: View) -> bool
    ensures { result ≡ accepts (viewed view.entry) }
{
    wellformed::check(view)
}

// The first slot with the key that a descent from the root meets, or 0.
pub fn find(view: View, k: Key) -> Answer
    ensures { Tells (perform (command.find k.0)) view.entry result }
{
    let tree = wellformed::checked(view)?;
    queries::find(tree, k)
}

// Both bounds; kind 0 is Unbounded, 1 Included, 2 Excluded. It stays a number, since any other has to be answered by
// BadRecord behind Damaged.
#[inline(always)]
fn bound(view: View, side: Side, kind: u32, k: Key) -> Answer
    ensures { Tells (perform (bound_command (side_of side) kind k.0)) view.entry result }
{
    let tree = wellformed::checked(view)?;
    queries::bound(tree, side, kind, k)
}

// The first slot with a key from k on, or past it.
pub fn lower_bound(view: View, kind: u32, k: Key) -> Answer
    ensures { Tells (perform (command.lower_bound kind k.0)) view.entry result }
{
    bound(view, Side::Left, kind, k)
}

// The last slot with a key up to k, or before it.
pub fn upper_bound(view: View, kind: u32, k: Key) -> Answer
    ensures { Tells (perform (command.upper_bound kind k.0)) view.entry result }
{
    bound(view, Side::Right, kind, k)
}

// Both moves.
#[inline(always)]
fn step(view: View, side: Side, position: Slot) -> Answer
    ensures { Tells (perform (step_command (side_of side) position.0)) view.entry result }
{
    let tree = wellformed::checked(view)?;
    queries::neighbour(tree, side, position)
}

// The slot after a position; from 0 the first.
pub fn next(view: View, position: Slot) -> Answer
    ensures { Tells (perform (command.next position.0)) view.entry result }
{
    step(view, Side::Right, position)
}

// The slot before a position; from 0 the last.
pub fn prev(view: View, position: Slot) -> Answer
    ensures { Tells (perform (command.prev position.0)) view.entry result }
{
    step(view, Side::Left, position)
}

// What there is for a key: the slot that holds it, or the empty place where it would hang.
pub fn entry(view: View, k: Key) -> Result<Entry, Refusal>
    ensures { found_told result ≡ entry_call k.0 (viewed view.entry) }
{
    let tree = wellformed::checked(view)?;
    Ok(queries::entry(tree, k))
}

// The check of what is lent to be changed, taken apart already: here it is put together to be read.
fn test(left: &[u32], right: &[u32], pc: &[u32], key: &[u64], root: u32) -> Result<(), Refusal>
    ensures { Tested (lent left.now right.now pc.now key.now root) result }
{
    wellformed::checked(View {
        left,
        right,
        pc,
        key,
        root: Slot(root),
    })?;
    Ok(())
}

// Hangs a slot with its key, behind all keys that are not greater.
pub fn insert(lent: Lent, slot: Slot, k: Key) -> Answer
    ensures { Does (perform (command.insert slot.0 k.0)) lent.entry result lent.exit }
{
    let Lent(left, right, pc, key, root) = lent;
    test(left, right, pc, key, *root)?;
    changes::insert(Lent(left, right, pc, key, root), slot, k)
}

// Operation 2, or_insert with a fresh entry: the slot that holds the key, or the new one.
pub fn find_or_insert(lent: Lent, slot: Slot, k: Key) -> Answer
    ensures { Does (perform (command.or_insert slot.0 k.0)) lent.entry result lent.exit }
{
    let Lent(left, right, pc, key, root) = lent;
    test(left, right, pc, key, *root)?;
    changes::or_insert(Lent(left, right, pc, key, root), slot, k)
}

// The same with an entry at hand; Stale where `entry` would give another now.
pub fn or_insert(lent: Lent, entry: Entry, slot: Slot, k: Key) -> Answer
    ensures { Does (or_insert_call (entry_told entry) slot.0 k.0) lent.entry result lent.exit }
{
    let Lent(left, right, pc, key, root) = lent;
    test(left, right, pc, key, *root)?;
    changes::or_insert_at(Lent(left, right, pc, key, root), entry, slot, k)
}

// Takes a slot out and answers the one after it; its key stays.
pub fn remove(tree: Links, key: &[u64], position: Slot) -> Answer
    ensures { Relinks (perform (command.remove position.0)) tree.entry key.now result tree.exit }
{
    let Links(left, right, pc, root) = tree;
    test(left, right, pc, key, *root)?;
    changes::remove(Links(left, right, pc, root), key, position)
}

// Both insertions beside a position.
#[inline(always)]
fn insert_beside(lent: Lent, side: Side, position: Slot, slot: Slot, k: Key) -> Answer
    ensures { Does (perform (insert_next (side_of side) position.0 slot.0 k.0)) lent.entry result lent.exit }
{
    let Lent(left, right, pc, key, root) = lent;
    test(left, right, pc, key, *root)?;
    changes::insert_beside(Lent(left, right, pc, key, root), side, position, slot, k)
}

// Hangs a slot with its key right behind a position; from 0 at the front.
pub fn insert_after(lent: Lent, position: Slot, slot: Slot, k: Key) -> Answer
    ensures { Does (perform (command.insert_after position.0 slot.0 k.0)) lent.entry result lent.exit }
{
    let Lent(left, right, pc, key, root) = lent;
    insert_beside(
        Lent(left, right, pc, key, root),
        Side::Right,
        position,
        slot,
        k,
    )
}

// Hangs a slot with its key right before a position; from 0 at the back.
pub fn insert_before(lent: Lent, position: Slot, slot: Slot, k: Key) -> Answer
    ensures { Does (perform (command.insert_before position.0 slot.0 k.0)) lent.entry result lent.exit }
{
    let Lent(left, right, pc, key, root) = lent;
    insert_beside(
        Lent(left, right, pc, key, root),
        Side::Left,
        position,
        slot,
        k,
    )
}

// Puts a slot with its key in the place of another, which is released.
pub fn replace_with(lent: Lent, position: Slot, slot: Slot, k: Key) -> Answer
    ensures { Does (perform (command.replace_with position.0 slot.0 k.0)) lent.entry result lent.exit }
{
    let Lent(left, right, pc, key, root) = lent;
    test(left, right, pc, key, *root)?;
    changes::replace_with(Lent(left, right, pc, key, root), position, slot, k)
}

// All slots become unlinked; the keys stay.
pub fn clear(tree: Links, key: &[u64]) -> Answer
    ensures { Relinks (perform command.clear) tree.entry key.now result tree.exit }
{
    let Links(left, right, pc, root) = tree;
    test(left, right, pc, key, *root)?;
    changes::clear(Links(left, right, pc, root), key)
}
