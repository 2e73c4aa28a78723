// The tests of a call, each by itself: Ok, or why the call is refused.
#![tactic(auto)]

ghost use Rattle.std.specs.Prelude.{◌≤◌, true, false, ◌≡◌, length};
ghost use Rattle.model.specs.Lent.{at};
ghost use Rattle.theory.specs.Between.{up_to, from_on, between};
ghost use Rattle.links.specs.Outcomes.{verdict};
ghost use Rattle.refusals.specs.Tested.{PositionTested, SlotTested, Beside};

use links::types::{Key, Refusal, Slot};

// BadSlot, NotLinked or Ok; 0 is a position.
pub fn test_position(pc: &[u32], position: Slot) -> Result<(), Refusal>
    ensures { PositionTested false pc.now position.0 (verdict result) }
{
    if position.0 == 0 {
        return Ok(());
    }
    if pc.len() < position.0 as usize {
        return Err(Refusal::BadSlot);
    }
    if links::is_linked(pc, position) {
        Ok(())
    } else {
        Err(Refusal::NotLinked)
    }
}

// BadSlot, NullCursor, NotLinked or Ok.
pub fn test_node(pc: &[u32], position: Slot) -> Result<(), Refusal>
    ensures { PositionTested true pc.now position.0 (verdict result) }
{
    if position.0 == 0 {
        return Err(Refusal::NullCursor);
    }
    test_position(pc, position)
}

// BadSlot, AlreadyLinked or Ok.
pub fn test_new(pc: &[u32], slot: Slot) -> Result<(), Refusal>
    ensures { SlotTested pc.now slot.0 (verdict result) }
{
    if slot.0 == 0 || pc.len() < slot.0 as usize {
        return Err(Refusal::BadSlot);
    }
    if links::is_linked(pc, slot) {
        Err(Refusal::AlreadyLinked)
    } else {
        Ok(())
    }
}

// Whether the key of a slot is at most k; 0 is no slot.
fn up_to(key: &[u64], slot: Slot, k: Key) -> bool
    requires { slot.0 ≤ length key.now }
    ensures { result ≡ up_to (at key.now) slot.0 k.0 }
{
    slot.or_none()
        .is_none_or(|slot| links::key_of(key, slot) <= k)
}

// Whether the key of a slot is at least k; 0 is no slot.
fn from_on(key: &[u64], slot: Slot, k: Key) -> bool
    requires { slot.0 ≤ length key.now }
    ensures { result ≡ from_on (at key.now) slot.0 k.0 }
{
    slot.or_none()
        .is_none_or(|slot| k <= links::key_of(key, slot))
}

// Whether a key may stand between two slots, either of them 0.
pub fn in_order(key: &[u64], before: Slot, k: Key, after: Slot) -> bool
    requires { Beside key.now before.0 after.0 }
    ensures { result ≡ between (at key.now) before.0 k.0 after.0 }
{
    up_to(key, before, k) && from_on(key, after, k)
}
