// The operations that only look, on well-formed arrays: `find`, the two bounds, the two moves with their refusals, and
// `entry`.
#![tactic(auto)]

ghost use Rattle.std.specs.Prelude.{◌≡◌};
ghost use Rattle.model.specs.Lent.{key_of, tree_of};
ghost use Rattle.model.specs.Descent.{entry_for};
ghost use Rattle.model.specs.Commands as command;
ghost use Rattle.model.specs.Operations.{operate};
ghost use Rattle.links.specs.Bundles.{viewed, Tells};
ghost use Rattle.links.specs.Sides.{side_of};
ghost use Rattle.descent.specs.Entries.{entry_told};
ghost use Rattle.queries.specs.Queries.{BoundTested, bound_command, step_command};

use descent::types::Entry;
use links::types::{Answer, Done, Key, Refusal, Side, Slot, Sound};
use std::ops::Bound;

// The bound of a kind: 0 is Unbounded, 1 Included, 2 Excluded, and any other BadRecord.
fn bound_of(kind: u32, k: Key) -> Result<Bound<Key>, Refusal>
    ensures { BoundTested kind k.0 result }
{
    match kind {
        0 => Ok(Bound::Unbounded),
        1 => Ok(Bound::Included(k)),
        2 => Ok(Bound::Excluded(k)),
        _ => Err(Refusal::BadRecord),
    }
}

// The first slot with the key that a descent from the root meets, or 0.
pub fn find(tree: Sound, k: Key) -> Answer
    ensures { Tells (operate (command.find k.0)) tree.entry.view result }
{
    let met = descent::find(tree.view, k);
    Ok(Done {
        probes: met.probes,
        slot: met.slot,
    })
}

// For the left side the first slot within a lower bound, for the right side the last one within an upper bound. Any
// number for the kind has an answer, so that it is no `Bound` yet.
#[inline(always)]
pub fn bound(tree: Sound, side: Side, kind: u32, k: Key) -> Answer
    ensures { Tells (operate (bound_command (side_of side) kind k.0)) tree.entry.view result }
{
    let bound = bound_of(kind, k)?;
    let met = descent::bound(tree.view, side, bound);
    Ok(Done {
        probes: met.probes,
        slot: met.slot,
    })
}

// The slot next to a position on a side, or 0; from 0 the first on the way there.
pub fn neighbour(tree: Sound, side: Side, position: Slot) -> Answer
    ensures { Tells (operate (step_command (side_of side) position.0)) tree.entry.view result }
{
    refusals::test_position(tree.view.pc, position)?;
    let slot = walks::neighbour(tree.view, side, position);
    Ok(Done { probes: 0, slot })
}

// What is there for a key: the slot that find gives, or the empty place where its descent ends.
pub fn entry(tree: Sound, k: Key) -> Entry
    ensures { entry_told result
        ≡ entry_for (key_of (viewed tree.entry.view).arrays) k.0 (tree_of (viewed tree.entry.view)) }
{
    descent::entry(tree.view, k).entry
}
