// One command record on well-formed arrays: the operation that it asks for, or BadRecord.
#![tactic(auto)]

pub mod types;

ghost use Rattle.model.specs.WellFormed.{WellFormed};
ghost use Rattle.model.specs.Operations.{operate};
ghost use Rattle.model.specs.Batch.{obey as obeyed, command_of as commanded};
ghost use Rattle.links.specs.Bundles.{lent_in, Does, Tells};
ghost use Rattle.records.specs.Records.{record_in};
ghost use Rattle.commands.specs.Commands.{asked, changing};

use links::types::{Answer, Lent, Links, Slot, Sound, View};
use records::types::Record;
use types::{Change, Command, Query};

// What a query answers.
#[inline(always)]
fn look(tree: Sound, query: Query) -> Answer
    ensures { Tells (operate (asked query)) tree.entry.view result }
{
    match query {
        Query::Find(k) => queries::find(tree, k),
        Query::Bound(side, kind, k) => queries::bound(tree, side, kind, k),
        Query::Neighbour(side, position) => queries::neighbour(tree, side, position),
    }
}

// What a change does.
#[inline(always)]
fn apply(lent: Lent, change: Change) -> Answer
    requires { WellFormed (lent_in lent) }
    ensures { Does (operate (changing change)) lent.entry result lent.exit }
{
    let Lent(left, right, pc, key, root) = lent;
    match change {
        Change::Insert(slot, k) => changes::insert(Lent(left, right, pc, key, root), slot, k),
        Change::OrInsert(slot, k) => changes::or_insert(Lent(left, right, pc, key, root), slot, k),
        Change::Remove(position) => changes::remove(Links(left, right, pc, root), key, position),
        Change::InsertBeside(side, position, slot, k) => {
            changes::insert_beside(Lent(left, right, pc, key, root), side, position, slot, k)
        }
        Change::ReplaceWith(position, slot, k) => {
            changes::replace_with(Lent(left, right, pc, key, root), position, slot, k)
        }
        Change::Clear => changes::clear(Links(left, right, pc, root), key),
    }
}

// One record: what its operation does, or BadRecord where its mark or its operation is none.
pub fn obey(lent: Lent, order: Record) -> Answer
    requires { WellFormed (lent_in lent) }
    ensures { Does (obeyed operate (commanded (record_in order))) lent.entry result lent.exit }
{
    let Lent(left, right, pc, key, root) = lent;
    let change = match Command::try_from(order)? {
        Command::Query(query) => {
            let view = View {
                left,
                right,
                pc,
                key,
                root: Slot(*root),
            };
            return look(Sound { view }, query);
        }
        Command::Change(change) => change,
    };
    apply(Lent(left, right, pc, key, root), change)
}
