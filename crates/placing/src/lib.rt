// Placing a slot with its key, on arrays that are well formed, once the slot has been tested: at an empty place, at an
// entry, in the gap beside a position. A key is stored where its slot has been hung, and nowhere else.
#![tactic(auto)]

pub mod types;

ghost use Rattle.std.specs.Prelude.{◌≡◌};
ghost use Rattle.model.specs.Commands as command;
ghost use Rattle.model.specs.Operations.{accepted};
ghost use Rattle.links.specs.Bundles.{viewed, lent_in, lent_out};
ghost use Rattle.links.specs.Outcomes.{outcome_of};
ghost use Rattle.links.specs.Sides.{side_of};
ghost use Rattle.descent.specs.Entries.{entry_told};
ghost use Rattle.placing.specs.Positions.{Stands, Fits};
ghost use Rattle.placing.specs.Places.{HangPre, HungAt, FillPre, BesidePre, FoundBeside, GapAt, InsertPre};
ghost use Rattle.placing.specs.Places.{InsertedIn};

use descent::types::{Entry, InsertCursor};
use links::types::{Answer, Done, Key, Lent, Links, Refusal, Side, Slot, View};
use types::Gap;

// A slot hangs at an empty place, with its key.
#[inline(always)]
pub fn hang_at(lent: Lent, at: InsertCursor, slot: Slot, k: Key)
    requires { HangPre (lent_in lent) at slot.0 }
    ensures { HungAt (lent_in lent.entry) at slot.0 k.0 (lent_out lent.exit) }
{
    let Lent(left, right, pc, key, root) = lent;
    hanging::insert_at(Links(left, right, pc, root), at.parent, at.side, slot);
    links::set_key(key, slot, k);
}

// The slot of an occupied entry, or the new one, hung at a vacant place.
#[inline(always)]
pub fn fill(lent: Lent, entry: Entry, probes: u32, slot: Slot, k: Key) -> Done
    requires { FillPre (lent_in lent) (entry_told entry) probes slot.0 k.0 }
    ensures { outcome_of (Ok result) (lent_out lent.exit)
        ≡ accepted (command.or_insert slot.0 k.0) (lent_in lent.entry) }
{
    let Lent(left, right, pc, key, root) = lent;
    match entry {
        Entry::Occupied(held) => {
            return Done {
                probes,
                slot: held.slot,
            };
        }
        Entry::Vacant(at) => hang_at(Lent(left, right, pc, key, root), at, slot, k),
    }
    Done { probes, slot }
}

// Where a slot hangs that comes between a position and its neighbour, by the child numbers on that side of the
// position: at the position if it has no such child, else on the named side of the neighbour.
fn beside(links: &[u32], position: Slot, neighbour: Slot, side: Side) -> InsertCursor
    requires { BesidePre links.now position.0 }
    ensures { FoundBeside links.now position.0 neighbour.0 (side_of side) result }
{
    if position.0 == 0 {
        return InsertCursor {
            parent: neighbour,
            side,
        };
    }
    let child = links::get(links, position);
    if child.0 == 0 {
        return InsertCursor {
            parent: position,
            side: side.opposite(),
        };
    }
    InsertCursor {
        parent: neighbour,
        side,
    }
}

// The gap between a position and the slot next to it on a side.
#[inline(always)]
pub fn gap(view: View, side: Side, position: Slot) -> Gap
    requires { Stands (viewed view) position.0 }
    ensures { GapAt (side_of side) (viewed view.entry) position.0 result }
{
    let next = walks::neighbour(view, side, position);
    match side {
        Side::Left => Gap {
            earlier: next,
            later: position,
            place: beside(view.left, position, next, Side::Right),
        },
        Side::Right => Gap {
            earlier: position,
            later: next,
            place: beside(view.right, position, next, Side::Left),
        },
    }
}

// A slot goes into a gap, if its key may stand there.
#[inline(always)]
pub fn insert_in(lent: Lent, gap: Gap, slot: Slot, k: Key) -> Answer
    requires { InsertPre (lent_in lent) gap slot.0 }
    ensures { InsertedIn (lent_in lent.entry) gap slot.0 k.0 (outcome_of result (lent_out lent.exit)) }
{
    let Lent(left, right, pc, key, root) = lent;
    if !refusals::in_order(key, gap.earlier, k, gap.later) {
        return Err(Refusal::OutOfOrder);
    }
    hang_at(Lent(left, right, pc, key, root), gap.place, slot, k);
    Ok(Done { probes: 0, slot })
}

// Whether a key may stand between the slots before and after a position.
#[inline(always)]
pub fn may_stand(view: View, position: Slot, k: Key) -> bool
    requires { Stands (viewed view) position.0 }
    ensures { Fits (viewed view.entry) position.0 k.0 result }
{
    let earlier = walks::neighbour(view, Side::Left, position);
    let later = walks::neighbour(view, Side::Right, position);
    refusals::in_order(view.key, earlier, k, later)
}
