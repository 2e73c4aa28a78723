// The calls that change nothing: the check, the searches and walks, and `entry_for`.
ghost use Rattle.std.specs.Prelude.{◌≡◌};
ghost use Rattle.model.specs.Lent.{lent};
ghost use Rattle.model.specs.Check.{check as accepts};
ghost use Rattle.model.specs.Commands as command;
ghost use Rattle.model.specs.Operations.{perform, entry_call};
ghost use Rattle.exports.specs.Told.{Told, check_number};
ghost use Rattle.exports.specs.Places.{PlaceTold};

use crate::types::{Place, Reply};
use links::types::{Key, Slot, View};

// Whether the arrays are well formed, W1 to W6, as the number of a code: Done or Damaged.
#[unsafe(no_mangle)]
pub extern "C" fn lichenbrooch_check(
    left: &[u32],
    right: &[u32],
    pc: &[u32],
    key: &[u64],
    root: u32,
) -> u32
    ensures { result ≡ check_number (accepts
        (lent left.now right.now pc.now key.now root)) }
{
    let view = View {
        left,
        right,
        pc,
        key,
        root: Slot(root),
    };
    if index::check(view) { 0 } else { 1 }
}

// The first slot with the key that a descent from the root meets, or 0.
#[unsafe(no_mangle)]
pub extern "C" fn lichenbrooch_find(
    left: &[u32],
    right: &[u32],
    pc: &[u32],
    key: &[u64],
    root: u32,
    k: u64,
) -> Reply
    ensures { Told result
        (lent left.now right.now pc.now key.now root)
        (perform (command.find k)
        (lent left.now right.now pc.now key.now root)) }
{
    Reply::from(index::find(
        View {
            left,
            right,
            pc,
            key,
            root: Slot(root),
        },
        Key(k),
    ))
}

// The first slot with a key from k on, or past it: kind 0 is Unbounded, 1 Included, 2 Excluded.
#[unsafe(no_mangle)]
pub extern "C" fn lichenbrooch_lower_bound(
    left: &[u32],
    right: &[u32],
    pc: &[u32],
    key: &[u64],
    root: u32,
    kind: u32,
    k: u64,
) -> Reply
    ensures { Told result
        (lent left.now right.now pc.now key.now root)
        (perform (command.lower_bound kind k)
        (lent left.now right.now pc.now key.now root)) }
{
    Reply::from(index::lower_bound(
        View {
            left,
            right,
            pc,
            key,
            root: Slot(root),
        },
        kind,
        Key(k),
    ))
}

// The last slot with a key up to k, or before it.
#[unsafe(no_mangle)]
pub extern "C" fn lichenbrooch_upper_bound(
    left: &[u32],
    right: &[u32],
    pc: &[u32],
    key: &[u64],
    root: u32,
    kind: u32,
    k: u64,
) -> Reply
    ensures { Told result
        (lent left.now right.now pc.now key.now root)
        (perform (command.upper_bound kind k)
        (lent left.now right.now pc.now key.now root)) }
{
    Reply::from(index::upper_bound(
        View {
            left,
            right,
            pc,
            key,
            root: Slot(root),
        },
        kind,
        Key(k),
    ))
}

// The slot after a position; from 0 the first.
#[unsafe(no_mangle)]
pub extern "C" fn lichenbrooch_next(
    left: &[u32],
    right: &[u32],
    pc: &[u32],
    key: &[u64],
    root: u32,
    position: u32,
) -> Reply
    ensures { Told result
        (lent left.now right.now pc.now key.now root)
        (perform (command.next position)
        (lent left.now right.now pc.now key.now root)) }
{
    Reply::from(index::next(
        View {
            left,
            right,
            pc,
            key,
            root: Slot(root),
        },
        Slot(position),
    ))
}

// The slot before a position; from 0 the last.
#[unsafe(no_mangle)]
pub extern "C" fn lichenbrooch_prev(
    left: &[u32],
    right: &[u32],
    pc: &[u32],
    key: &[u64],
    root: u32,
    position: u32,
) -> Reply
    ensures { Told result
        (lent left.now right.now pc.now key.now root)
        (perform (command.prev position)
        (lent left.now right.now pc.now key.now root)) }
{
    Reply::from(index::prev(
        View {
            left,
            right,
            pc,
            key,
            root: Slot(root),
        },
        Slot(position),
    ))
}

// What there is for a key: the slot that holds it, or the empty place where it would hang.
#[unsafe(no_mangle)]
pub extern "C" fn lichenbrooch_entry_for(
    left: &[u32],
    right: &[u32],
    pc: &[u32],
    key: &[u64],
    root: u32,
    k: u64,
) -> Place
    ensures { PlaceTold result (entry_call k
        (lent left.now right.now pc.now key.now root)) }
{
    Place::from(index::entry(
        View {
            left,
            right,
            pc,
            key,
            root: Slot(root),
        },
        Key(k),
    ))
}
