// From answers and entries to their numbers, and from the numbers of an entry back.
ghost use Rattle.std.specs.Prelude.{◌≡◌};
ghost use Rattle.model.specs.Answers.{code_number};
ghost use Rattle.links.specs.Outcomes.{refusal_code};
ghost use Rattle.descent.specs.Entries.{entry_told};
ghost use Rattle.index.specs.Found.{found_told};
ghost use Rattle.exports.specs.Told.{Says, Counts, Keys};
ghost use Rattle.exports.specs.Places.{PlaceTold, entry_in};

use crate::types::{BatchReply, LineKey, Place, Reply};
use descent::types::{Cursor, Entry, InsertCursor};
use links::types::{Done, Key, Refusal, Side, Slot};

// The number of a refusal's code.
fn number_of(why: Refusal) -> u32
    ensures { result ≡ code_number (refusal_code why) }
{
    u32::from(u8::from(why))
}

impl From<Result<Done, Refusal>> for Reply {
    ghost from_gives = { λ answer reply. Says answer reply };

    fn from(answer: Result<Done, Refusal>) -> Reply {
        match answer {
            Ok(done) => Reply {
                code: 0,
                probes: done.probes,
                slot: done.slot.0,
            },
            Err(why) => Reply {
                code: number_of(why),
                probes: 0,
                slot: 0,
            },
        }
    }
}

impl From<Result<u32, Refusal>> for BatchReply {
    ghost from_gives = { λ count reply. Counts count reply };

    fn from(count: Result<u32, Refusal>) -> BatchReply {
        match count {
            Ok(count) => BatchReply { code: 0, count },
            Err(why) => BatchReply {
                code: number_of(why),
                count: 0,
            },
        }
    }
}

impl From<Result<Key, Refusal>> for LineKey {
    ghost from_gives = { λ key line. Keys key line };

    fn from(key: Result<Key, Refusal>) -> LineKey {
        match key {
            Ok(key) => LineKey {
                code: 0,
                key: key.0,
            },
            Err(why) => LineKey {
                code: number_of(why),
                key: 0,
            },
        }
    }
}

impl From<Result<Entry, Refusal>> for Place {
    ghost from_gives = { λ found place. PlaceTold place (found_told found) };

    fn from(found: Result<Entry, Refusal>) -> Place {
        match found {
            Ok(Entry::Occupied(held)) => Place {
                code: 0,
                occupied: 1,
                slot: held.slot.0,
                on_left: 0,
            },
            Ok(Entry::Vacant(at)) => Place {
                code: 0,
                occupied: 0,
                slot: at.parent.0,
                on_left: u32::from(at.side == Side::Left),
            },
            Err(why) => Place {
                code: number_of(why),
                occupied: 0,
                slot: 0,
                on_left: 0,
            },
        }
    }
}

// The entry that the numbers say; its code is not looked at.
impl From<Place> for Entry {
    ghost from_gives = { λ place entry. entry_told entry ≡ entry_in place };

    fn from(place: Place) -> Entry {
        if place.occupied != 0 {
            return Entry::Occupied(Cursor {
                slot: Slot(place.slot),
            });
        }
        Entry::Vacant(InsertCursor {
            parent: Slot(place.slot),
            side: if place.on_left != 0 {
                Side::Left
            } else {
                Side::Right
            },
        })
    }
}
