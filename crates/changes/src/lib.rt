// The operations that change the tree, on arrays that are well formed. Each tests what it was given, in the order of
// the codes, and does its work where nothing is refused. That they are well formed is a `requires`: as a ghost field
// beside the mutable references it was tried, and it would have to hold between the writes.
#![tactic(auto)]

ghost use Rattle.model.specs.WellFormed.{WellFormed};
ghost use Rattle.model.specs.Commands as command;
ghost use Rattle.model.specs.Answers.{entry_refusal, unless_refused};
ghost use Rattle.model.specs.Operations.{accepted, operate};
ghost use Rattle.links.specs.Bundles.{lent_in, keyed_in, Does, Relinks};
ghost use Rattle.links.specs.Sides.{side_of};
ghost use Rattle.descent.specs.Entries.{entry_told};
ghost use Rattle.changes.specs.Changes.{insert_next};

use descent::types::Entry;
use links::types::{Answer, Done, Key, Lent, Links, Refusal, Side, Slot, View};

// A slot goes after every key that is at most its own.
#[inline(always)]
pub fn insert(lent: Lent, slot: Slot, k: Key) -> Answer
    requires { WellFormed (lent_in lent) }
    ensures { Does (operate (command.insert slot.0 k.0)) lent.entry result lent.exit }
{
    let Lent(left, right, pc, key, root) = lent;
    refusals::test_new(pc, slot)?;
    let view = View {
        left,
        right,
        pc,
        key,
        root: Slot(*root),
    };
    let path = descent::path(view, |held| k < held);
    let at = descent::place(key, path.last, k);
    placing::hang_at(Lent(left, right, pc, key, root), at, slot, k);
    Ok(Done {
        probes: path.probes,
        slot,
    })
}

// The slot that has the key, or else the new one, hung where the descent for the key ends.
#[inline(always)]
pub fn or_insert(lent: Lent, slot: Slot, k: Key) -> Answer
    requires { WellFormed (lent_in lent) }
    ensures { Does (operate (command.or_insert slot.0 k.0)) lent.entry result lent.exit }
{
    let Lent(left, right, pc, key, root) = lent;
    refusals::test_new(pc, slot)?;
    let view = View {
        left,
        right,
        pc,
        key,
        root: Slot(*root),
    };
    let fresh = descent::entry(view, k);
    Ok(placing::fill(
        Lent(left, right, pc, key, root),
        fresh.entry,
        fresh.probes,
        slot,
        k,
    ))
}

// As `or_insert`, with an entry that was asked for before and may be stale.
pub fn or_insert_at(lent: Lent, entry: Entry, slot: Slot, k: Key) -> Answer
    requires { WellFormed (lent_in lent) }
    ensures { Does
        (λ m. unless_refused (entry_refusal (entry_told entry) slot.0 k.0 m) m
        (λ _. accepted (command.or_insert slot.0 k.0) m))
        lent.entry result lent.exit }
{
    let Lent(left, right, pc, key, root) = lent;
    refusals::test_new(pc, slot)?;
    let view = View {
        left,
        right,
        pc,
        key,
        root: Slot(*root),
    };
    let fresh = descent::entry(view, k);
    if entry != fresh.entry {
        return Err(Refusal::Stale);
    }
    Ok(placing::fill(
        Lent(left, right, pc, key, root),
        entry,
        fresh.probes,
        slot,
        k,
    ))
}

// A node is taken out of the tree, and its key stays. The answer is the slot after it.
#[inline(always)]
pub fn remove(tree: Links, key: &[u64], position: Slot) -> Answer
    requires { WellFormed (keyed_in tree key.now) }
    ensures { Relinks (operate (command.remove position.0)) tree.entry key.now result tree.exit }
{
    let Links(left, right, pc, root) = tree;
    refusals::test_node(pc, position)?;
    let view = View {
        left,
        right,
        pc,
        key,
        root: Slot(*root),
    };
    let later = walks::neighbour(view, Side::Right, position);
    removal::remove(Links(left, right, pc, root), position);
    Ok(Done {
        probes: 0,
        slot: later,
    })
}

// A slot goes right beside a position: after it, or before it; from 0 to the front, or to the back.
#[inline(always)]
pub fn insert_beside(lent: Lent, side: Side, position: Slot, slot: Slot, k: Key) -> Answer
    requires { WellFormed (lent_in lent) }
    ensures { Does (operate (insert_next (side_of side) position.0 slot.0 k.0)) lent.entry result lent.exit }
{
    let Lent(left, right, pc, key, root) = lent;
    refusals::test_position(pc, position)?;
    refusals::test_new(pc, slot)?;
    let view = View {
        left,
        right,
        pc,
        key,
        root: Slot(*root),
    };
    let gap = placing::gap(view, side, position);
    placing::insert_in(Lent(left, right, pc, key, root), gap, slot, k)
}

// A new slot takes the place of a position's node, with its links and colour.
#[inline(always)]
pub fn replace_with(lent: Lent, position: Slot, slot: Slot, k: Key) -> Answer
    requires { WellFormed (lent_in lent) }
    ensures { Does (operate (command.replace_with position.0 slot.0 k.0)) lent.entry result lent.exit }
{
    let Lent(left, right, pc, key, root) = lent;
    refusals::test_node(pc, position)?;
    refusals::test_new(pc, slot)?;
    let view = View {
        left,
        right,
        pc,
        key,
        root: Slot(*root),
    };
    if !placing::may_stand(view, position, k) {
        return Err(Refusal::OutOfOrder);
    }
    turns::replace_with(Links(left, right, pc, root), position, slot);
    links::set_key(key, slot, k);
    Ok(Done { probes: 0, slot })
}

// All slots become unlinked; the keys stay.
pub fn clear(tree: Links, key: &[u64]) -> Answer
    requires { WellFormed (keyed_in tree key.now) }
    ensures { Relinks (operate command.clear) tree.entry key.now result tree.exit }
{
    let Links(left, right, pc, root) = tree;
    clearing::clear(Links(left, right, pc, root));
    Ok(Done {
        probes: 0,
        slot: Slot(0),
    })
}
