// What a command record asks for.
ghost use Rattle.commands.specs.Commands.{Names};

use links::types::{Key, Refusal, Side, Slot};
use records::types::Record;

// An operation that only looks, with its fields. The kind of a bound is tested by the operation.
#[derive(Clone, Copy)]
pub enum Query {
    Find(Key),
    Bound(Side, u32, Key),
    Neighbour(Side, Slot),
}

// One that changes the tree. A slot goes beside a position: before it on the left, after it on the right.
#[derive(Clone, Copy)]
pub enum Change {
    Insert(Slot, Key),
    OrInsert(Slot, Key),
    Remove(Slot),
    InsertBeside(Side, Slot, Slot, Key),
    ReplaceWith(Slot, Slot, Key),
    Clear,
}

// Any operation.
#[derive(Clone, Copy)]
pub enum Command {
    Query(Query),
    Change(Change),
}

// The command of a record, or BadRecord where its mark or its operation is none.
impl TryFrom<Record> for Command {
    type Error = Refusal;

    ghost try_from_gives = { λ order r. Names order r };

    fn try_from(order: Record) -> Result<Command, Refusal> {
        if order.mark != records::MARK {
            return Err(Refusal::BadRecord);
        }
        let Record {
            kind,
            position,
            slot,
            key,
            ..
        } = order;
        match order.operation {
            1 => Ok(Command::Change(Change::Insert(slot, key))),
            2 => Ok(Command::Change(Change::OrInsert(slot, key))),
            3 => Ok(Command::Query(Query::Find(key))),
            4 => Ok(Command::Query(Query::Bound(Side::Left, kind, key))),
            5 => Ok(Command::Query(Query::Bound(Side::Right, kind, key))),
            6 => Ok(Command::Change(Change::Remove(position))),
            7 => Ok(Command::Query(Query::Neighbour(Side::Right, position))),
            8 => Ok(Command::Query(Query::Neighbour(Side::Left, position))),
            9 => Ok(Command::Change(Change::InsertBeside(Side::Right, position, slot, key))),
            10 => Ok(Command::Change(Change::InsertBeside(Side::Left, position, slot, key))),
            11 => Ok(Command::Change(Change::ReplaceWith(position, slot, key))),
            12 => Ok(Command::Change(Change::Clear)),
            _ => Err(Refusal::BadRecord),
        }
    }
}
