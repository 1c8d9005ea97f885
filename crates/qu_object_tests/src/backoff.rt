use qu_base::{Bounds, ClientId, ObjectId, ReplicaId};
use qu_client::{Backoff, preferred};
use qu_testing::{all_hold, holds};
use std::test::Fail;

#[test]
fn a_quorum_is_asked_first() -> Result<(), Fail> {
    let bounds = Bounds::new(1)?;
    for replica in 0..6 {
        let is_asked = preferred(ObjectId(3), ReplicaId(replica), &bounds);
        holds(is_asked == (replica != 2), "all but replica 2")?;
    }
    Ok(())
}

#[test]
fn waits_of_the_first_client() -> Result<(), Fail> {
    let mut backoff = Backoff::seeded(7, ClientId(1));
    all_hold(&[
        (backoff.next(1) == 1, "after round 1"),
        (backoff.next(2) == 3, "after round 2"),
        (backoff.next(3) == 1, "after round 3"),
        (backoff.next(10) == 352, "after round 10"),
        (backoff.next(10) == 662, "after round 10 again"),
        (backoff.next(64) == 244, "after round 64"),
    ])
}

#[test]
fn waits_of_the_second_client() -> Result<(), Fail> {
    let mut backoff = Backoff::seeded(7, ClientId(2));
    all_hold(&[
        (backoff.next(1) == 1, "after round 1"),
        (backoff.next(2) == 4, "after round 2"),
        (backoff.next(3) == 7, "after round 3"),
        (backoff.clone()?.next(10) == 838, "of a clone"),
        (backoff.next(10) == 838, "after round 10"),
    ])
}
