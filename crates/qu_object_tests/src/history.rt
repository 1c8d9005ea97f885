use super::made::one_object;
use Made::{Barrier, Update};
use qu_base::{Bounds, ClientId, Digest, List, ObjectId, ReplicaId};
use qu_history::{AddFail, History, Sealed, SetOf, Sets};
use qu_stamp::{Candidate, Group, Stamp};
use qu_testing::{all_hold, holds};
use std::alloc::Global;
use std::test::Fail;

pub(super) const OBJECT: ObjectId = ObjectId(5);

/// What stands in a history above the opening candidate.
#[derive(Clone, Copy)]
pub(super) enum Made {
    /// The update of this client.
    Update(u16),
    /// A barrier above the updates.
    Barrier,
}

/// So many histories with these candidates above the opening one.
pub(super) type Alike = (u8, &'static [Made]);

fn stamp_at(time: u64, client: u16) -> Stamp {
    Stamp {
        time,
        barrier: false,
        client: ClientId(client),
        act: Some(Digest([1; 32])),
        set: Digest([2; 32]),
    }
}

/// The update of a client upon the opening candidate.
pub(super) fn update_by(client: u16) -> Candidate {
    Candidate {
        stamp: stamp_at(1, client),
        prior: Stamp::opening(),
        group: Group::none(),
    }
}

/// The barrier, which rests upon the update of client 1.
pub(super) fn barrier() -> Candidate {
    Candidate {
        stamp: Stamp {
            time: 2,
            barrier: true,
            client: ClientId(1),
            act: None,
            set: Digest([2; 32]),
        },
        prior: stamp_at(1, 1),
        group: Group::none(),
    }
}

/// The history of a replica with these candidates above the opening one, and with no HMACs.
fn sealed(alloc: Global, replica: u8, held: &[Made]) -> Result<Sealed, Fail> {
    let mut history = History::opening(alloc, OBJECT, ReplicaId(replica))?;
    for made in held {
        history.add(match made {
            Update(client) => update_by(*client),
            Barrier => barrier(),
        })?;
    }
    let macs = List::new(alloc);
    Ok(Sealed { history, macs })
}

/// Puts so many such histories at the end, of the replicas from 0 on.
fn put_all(alloc: Global, entries: &mut List<Sealed>, all: &[Alike]) -> Result<(), Fail> {
    let mut replica: u8 = 0;
    for (count, held) in all {
        for _ in 0..*count {
            entries.push(sealed(alloc, replica, *held)?)?;
            replica = replica.saturating_add(1);
        }
    }
    Ok(())
}

/// Sets of the object with so many histories of each kind.
pub(super) fn sets_of(alloc: Global, all: &[Alike]) -> Result<Sets, Fail> {
    let mut entries = List::new(alloc);
    put_all(alloc, &mut entries, all)?;
    one_object(alloc, OBJECT, entries)
}

fn tell(sets: &Sets) -> Result<(), Fail> {
    let in_all = sets.count(OBJECT, &Candidate::opening());
    all_hold(&[
        (sets.entries(OBJECT) == 4, "four histories"),
        (in_all == 4, "the opening in all"),
        (sets.latest(OBJECT) == Some(stamp_at(1, 2)), "the latest"),
        (sets.entries(ObjectId(6)) == 0, "no other object"),
        (sets.latest(ObjectId(6)).is_none(), "nothing of it"),
    ])
}

const FOUR: [Alike; 3] = [(2, &[Update(1)]), (1, &[Update(2)]), (1, &[])];

#[test]
fn sets_tell_what_their_histories_hold(rt: HostRuntime) -> Result<(), Fail> {
    tell(&sets_of(rt.alloc(), &FOUR)?.copy()?)
}

/// Histories that end with the one update and with the other, how many of them are left, and words for that.
const TRIMMED: [([Alike; 2], u8, &str); 3] = [
    ([(5, &[Update(1)]), (1, &[Update(2)])], 5, "one is left out"),
    (
        [(4, &[Update(1)]), (2, &[Update(2)])],
        6,
        "two would be too many",
    ),
    ([(3, &[Update(1)]), (3, &[Update(2)])], 6, "three too"),
];

#[test]
fn sets_are_trimmed_where_a_quorum_is_left(rt: HostRuntime) -> Result<(), Fail> {
    let bounds = Bounds::new(1)?;
    for (all, left, words) in &TRIMMED {
        let trimmed = sets_of(rt.alloc(), all)?.trim(rt.alloc(), &bounds)?;
        holds(trimmed.entries(OBJECT) == *left, *words)?;
    }
    Ok(())
}

fn put(alloc: Global, entries: &mut List<Sealed>, replicas: &[u8]) -> Result<(), Fail> {
    for replica in replicas {
        entries.push(sealed(alloc, *replica, &[])?)?;
    }
    Ok(())
}

/// Whether histories of these replicas are sets.
fn are_accepted(alloc: Global, replicas: &[u8]) -> Result<bool, Fail> {
    let mut entries = List::new(alloc);
    put(alloc, &mut entries, replicas)?;
    let object = SetOf {
        object: OBJECT,
        entries,
    };
    Ok(Sets::new(alloc, List::one(alloc, object)?)?.is_some())
}

/// Replicas, whether their histories are sets, and words for that.
const REPLICAS: [([u8; 2], bool, &str); 4] = [
    ([0, 1], true, "0 and 1"),
    ([1, 1], false, "1 twice"),
    ([1, 0], false, "1 and 0"),
    ([0, 16], false, "no replica 16"),
];

#[test]
fn sets_want_replicas_that_rise(rt: HostRuntime) -> Result<(), Fail> {
    let of_none = Sets::new(rt.alloc(), List::new(rt.alloc()))?;
    holds(of_none.is_none(), "no object")?;
    for (replicas, are_sets, words) in &REPLICAS {
        holds(are_accepted(rt.alloc(), replicas)? == *are_sets, *words)?;
    }
    Ok(())
}

fn refuses(history: &mut History) -> Result<(), Fail> {
    let refused = AddFail::NotLater(stamp_at(1, 2));
    all_hold(&[
        (history.add(update_by(2)).is_ok(), "the first update"),
        (
            history.add(update_by(1)) == Err(refused),
            "an earlier stamp",
        ),
        (history.add(update_by(2)) == Err(refused), "the same stamp"),
        (history.len() == 2, "two candidates"),
        (history.holds(&update_by(2)), "the one that was added"),
        (!history.holds(&update_by(1)), "the refused one is not held"),
    ])
}

#[test]
fn a_history_refuses_a_stamp_that_is_not_later(rt: HostRuntime) -> Result<(), Fail> {
    refuses(&mut History::opening(rt.alloc(), OBJECT, ReplicaId(0))?)
}

/// A candidate upon the latest of the history.
fn next_of(history: &History, time: u64) -> Candidate {
    Candidate {
        stamp: stamp_at(time, 1),
        prior: history.latest(),
        group: Group::none(),
    }
}

fn fills(history: &mut History) -> Result<(), Fail> {
    for time in 1..1024 {
        history.add(next_of(history, time))?;
    }
    let last = next_of(history, 1024);
    all_hold(&[
        (history.len() == 1024, "a full history"),
        (history.add(last) == Err(AddFail::HistoryFull), "one more"),
        (history.latest() == stamp_at(1023, 1), "the latest stays"),
    ])
}

#[test]
fn a_history_holds_1024_candidates(rt: HostRuntime) -> Result<(), Fail> {
    fills(&mut History::opening(rt.alloc(), OBJECT, ReplicaId(0))?)
}
