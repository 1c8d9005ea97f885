//! What several tests start from.

use qu_base::{Bounds, List, ObjectId, ReplicaId};
use qu_history::{History, Sealed, SetOf, Sets};
use qu_objects::{Ask, Op, Query};
use qu_seal::KeyRing;
use qu_stamp::Candidate;
use std::alloc::Global;
use std::test::Fail;

/// The keys of six replicas and two clients.
pub(super) fn keys() -> Result<KeyRing, Fail> {
    Ok(KeyRing::derive(7, &Bounds::new(1)?, 2))
}

/// An operation that reads the object.
pub(super) fn read(alloc: Global, object: ObjectId) -> Result<Op, Fail> {
    let parts = List::one(alloc, (object, Ask::Read))?;
    Ok(Op::Query(Query::new(parts)?))
}

/// The history of a replica with these candidates above the opening one; None stands for none.
pub(super) fn history_with(
    alloc: Global,
    object: ObjectId,
    replica: u8,
    above: &[Option<Candidate>],
) -> Result<History, Fail> {
    let mut history = History::opening(alloc, object, ReplicaId(replica))?;
    for candidate in above {
        if let Some(candidate) = candidate {
            history.add(*candidate)?;
        }
    }
    Ok(history)
}

/// Puts such a history at the end, with no HMACs.
pub(super) fn put_entry(
    alloc: Global,
    entries: &mut List<Sealed>,
    object: ObjectId,
    replica: u8,
    above: &[Option<Candidate>],
) -> Result<(), Fail> {
    let history = history_with(alloc, object, replica, above)?;
    let macs = List::new(alloc);
    Ok(entries.push(Sealed { history, macs })?)
}

/// Sets of one object with these entries.
pub(super) fn one_object(
    alloc: Global,
    object: ObjectId,
    entries: List<Sealed>,
) -> Result<Sets, Fail> {
    whole(alloc, List::one(alloc, SetOf { object, entries })?)
}

/// The sets of these objects.
pub(super) fn whole(alloc: Global, objects: List<SetOf>) -> Result<Sets, Fail> {
    match Sets::new(alloc, objects)? {
        Some(sets) => Ok(sets),
        None => Err("no sets".into()),
    }
}
