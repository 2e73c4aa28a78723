// The calls that change the tree.
ghost use Rattle.model.specs.Lent.{lent};
ghost use Rattle.model.specs.Commands as command;
ghost use Rattle.model.specs.Operations.{perform, or_insert_call};
ghost use Rattle.exports.specs.Told.{Told};
ghost use Rattle.exports.specs.Places.{entry_in};

use crate::types::{Place, Reply};
use descent::types::Entry;
use links::types::{Key, Lent, Links, Slot};

// Hangs a slot with its key, behind all keys that are not greater.
#[unsafe(no_mangle)]
pub extern "C" fn lichenbrooch_insert(
    left: &mut [u32],
    right: &mut [u32],
    pc: &mut [u32],
    key: &mut [u64],
    root: &mut u32,
    slot: u32,
    k: u64,
) -> Reply
    ensures { Told result
        (lent left.new right.new pc.new key.new root.new)
        (perform (command.insert slot k)
        (lent left.old right.old pc.old key.old root.old)) }
{
    Reply::from(index::insert(Lent(left, right, pc, key, root), Slot(slot), Key(k)))
}

// Operation 2, or_insert with a fresh entry: the slot that holds the key, or the new one.
#[unsafe(no_mangle)]
pub extern "C" fn lichenbrooch_find_or_insert(
    left: &mut [u32],
    right: &mut [u32],
    pc: &mut [u32],
    key: &mut [u64],
    root: &mut u32,
    slot: u32,
    k: u64,
) -> Reply
    ensures { Told result
        (lent left.new right.new pc.new key.new root.new)
        (perform (command.or_insert slot k)
        (lent left.old right.old pc.old key.old root.old)) }
{
    Reply::from(index::find_or_insert(Lent(left, right, pc, key, root), Slot(slot), Key(k)))
}

// The same with an entry at hand; Stale where `entry_for` would give another now.
#[unsafe(no_mangle)]
pub extern "C" fn lichenbrooch_or_insert(
    left: &mut [u32],
    right: &mut [u32],
    pc: &mut [u32],
    key: &mut [u64],
    root: &mut u32,
    entry: Place,
    slot: u32,
    k: u64,
) -> Reply
    ensures { Told result
        (lent left.new right.new pc.new key.new root.new)
        (or_insert_call (entry_in entry) slot k
        (lent left.old right.old pc.old key.old root.old)) }
{
    Reply::from(index::or_insert(
        Lent(left, right, pc, key, root),
        Entry::from(entry),
        Slot(slot),
        Key(k),
    ))
}

// Takes a slot out and answers the one after it; its key stays.
#[unsafe(no_mangle)]
pub extern "C" fn lichenbrooch_remove(
    left: &mut [u32],
    right: &mut [u32],
    pc: &mut [u32],
    key: &[u64],
    root: &mut u32,
    position: u32,
) -> Reply
    ensures { Told result
        (lent left.new right.new pc.new key.now root.new)
        (perform (command.remove position)
        (lent left.old right.old pc.old key.now root.old)) }
{
    Reply::from(index::remove(Links(left, right, pc, root), key, Slot(position)))
}

// Hangs a slot with its key right behind a position; from 0 at the front.
#[unsafe(no_mangle)]
pub extern "C" fn lichenbrooch_insert_after(
    left: &mut [u32],
    right: &mut [u32],
    pc: &mut [u32],
    key: &mut [u64],
    root: &mut u32,
    position: u32,
    slot: u32,
    k: u64,
) -> Reply
    ensures { Told result
        (lent left.new right.new pc.new key.new root.new)
        (perform (command.insert_after position slot k)
        (lent left.old right.old pc.old key.old root.old)) }
{
    Reply::from(index::insert_after(
        Lent(left, right, pc, key, root),
        Slot(position),
        Slot(slot),
        Key(k),
    ))
}

// Hangs a slot with its key right before a position; from 0 at the back.
#[unsafe(no_mangle)]
pub extern "C" fn lichenbrooch_insert_before(
    left: &mut [u32],
    right: &mut [u32],
    pc: &mut [u32],
    key: &mut [u64],
    root: &mut u32,
    position: u32,
    slot: u32,
    k: u64,
) -> Reply
    ensures { Told result
        (lent left.new right.new pc.new key.new root.new)
        (perform (command.insert_before position slot k)
        (lent left.old right.old pc.old key.old root.old)) }
{
    Reply::from(index::insert_before(
        Lent(left, right, pc, key, root),
        Slot(position),
        Slot(slot),
        Key(k),
    ))
}

// Puts a slot with its key in the place of another, which is released.
#[unsafe(no_mangle)]
pub extern "C" fn lichenbrooch_replace_with(
    left: &mut [u32],
    right: &mut [u32],
    pc: &mut [u32],
    key: &mut [u64],
    root: &mut u32,
    position: u32,
    slot: u32,
    k: u64,
) -> Reply
    ensures { Told result
        (lent left.new right.new pc.new key.new root.new)
        (perform (command.replace_with position slot k)
        (lent left.old right.old pc.old key.old root.old)) }
{
    Reply::from(index::replace_with(
        Lent(left, right, pc, key, root),
        Slot(position),
        Slot(slot),
        Key(k),
    ))
}

// All slots become unlinked; the keys stay.
#[unsafe(no_mangle)]
pub extern "C" fn lichenbrooch_clear(
    left: &mut [u32],
    right: &mut [u32],
    pc: &mut [u32],
    key: &[u64],
    root: &mut u32,
) -> Reply
    ensures { Told result
        (lent left.new right.new pc.new key.now root.new)
        (perform command.clear
        (lent left.old right.old pc.old key.now root.old)) }
{
    Reply::from(index::clear(Links(left, right, pc, root), key))
}
