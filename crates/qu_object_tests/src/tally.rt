use qu_base::ReplicaId;
use qu_testing::{all_hold, holds};
use qu_waiting::{Tally, VoteFail};
use std::alloc::Global;
use std::test::Fail;

/// Replica 5 answers 7, and replicas 0 and 15 answer 9: whether these votes are counted.
fn three_votes(tally: &mut Tally<i32>) -> bool {
    tally.take(ReplicaId(5), 7).is_ok()
        && tally.take(ReplicaId(0), 9).is_ok()
        && tally.take(ReplicaId(15), 9).is_ok()
}

fn is_best(tally: &Tally<i32>) -> bool {
    match tally.best() {
        Some((value, count)) => *value == 9 && count == 2,
        None => false,
    }
}

/// Three votes, and a second one of a replica that has voted.
fn votes(tally: &mut Tally<i32>) -> Result<(), Fail> {
    all_hold(&[
        (three_votes(tally), "three votes"),
        (
            tally.take(ReplicaId(5), 9).err() == Some(VoteFail::Twice(ReplicaId(5))),
            "a second vote",
        ),
        (tally.count(&9) == 2, "two for 9"),
        (
            tally.count(&7) == 1 && tally.count(&8) == 0,
            "one for 7, none for 8",
        ),
        (is_best(tally), "9 is the best"),
    ])
}

#[test]
fn each_replica_is_counted_once(rt: HostRuntime) -> Result<(), Fail> {
    votes(&mut Tally::new(rt.alloc()))
}

#[test]
fn a_second_vote_has_its_number() -> Result<(), Fail> {
    holds(
        VoteFail::Twice(ReplicaId(5)).number() == Some(2),
        "number 2",
    )
}

#[test]
fn a_tally_is_copied(rt: HostRuntime) -> Result<(), Fail> {
    copies(rt.alloc(), &mut Tally::new(rt.alloc()))
}

fn copies(alloc: Global, tally: &mut Tally<i32>) -> Result<(), Fail> {
    let has_no_best = tally.best().is_none();
    let are_counted = three_votes(tally);
    let copy = tally.copy(alloc)?;
    all_hold(&[
        (has_no_best, "no best of none"),
        (are_counted, "three votes"),
        (
            copy.has(ReplicaId(15)) && !copy.has(ReplicaId(1)),
            "who voted",
        ),
    ])
}
