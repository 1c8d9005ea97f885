use qu_base::{List, ReplicaId};
use qu_testing::holds;
use qu_waiting::{Fetch, Fetching};
use std::alloc::Global;
use std::test::Fail;

/// The first byte of what is found when the replica gives this byte.
fn given(
    alloc: Global,
    fetching: &mut Fetching,
    replica: u8,
    text: u8,
) -> Result<Option<u8>, Fail> {
    if replica >= 16 {
        return Err("no replica".into());
    }
    let text = List::one(alloc, text)?;
    match fetching.take(ReplicaId(replica), text)? {
        Fetch::Found(text) => Ok(text.get(0).copied()),
        Fetch::Still => Ok(None),
    }
}

#[test]
fn the_second_identical_answer_is_found(rt: HostRuntime) -> Result<(), Fail> {
    let mut fetching = Fetching::start(rt.alloc(), 2).copy()?;
    answers(rt.alloc(), &mut fetching)
}

/// Replicas, the byte that each gives, and the one that is found then.
const ANSWERS: [(u8, u8, Option<u8>, &str); 4] = [
    (5, b'x', None, "one x"),
    (0, b'y', None, "one y"),
    (0, b'y', None, "the same y"),
    (1, b'y', Some(b'y'), "two y"),
];

fn answers(alloc: Global, fetching: &mut Fetching) -> Result<(), Fail> {
    for (replica, text, found, words) in &ANSWERS {
        holds(given(alloc, fetching, *replica, *text)? == *found, *words)?;
    }
    Ok(())
}
