//! The row of a full history, which no run of a script reaches, by the acts that fill it.

use super::made::{history_with, keys, one_object};
use qu_base::{ClientId, List, ObjectId, Party, ReplicaId};
use qu_frames::{Body, Frame, Letter, Refusal, Verdict, blank_mac, decode};
use qu_history::{Sealed, Sets};
use qu_objects::{Act, KindName, Method};
use qu_replica::Replica;
use qu_seal::KeyRing;
use qu_stamp::{Candidate, Group, Stamp};
use qu_testing::holds;
use std::alloc::Global;
use std::test::Fail;

const COUNTER: ObjectId = ObjectId(0);

/// Replica 0 of six, with one counter.
fn started(alloc: Global) -> Result<Replica, Fail> {
    Ok(Replica::start(alloc, ReplicaId(0), keys()?, &[KindName::Counter])?)
}

/// The candidate upon the opening one with this stamp.
fn candidate(stamp: Stamp) -> Candidate {
    Candidate {
        stamp,
        prior: Stamp::opening(),
        group: Group::none(),
    }
}

/// The history of a replica that ends with this stamp, sealed.
fn entry(alloc: Global, keys: &KeyRing, replica: u8, latest: Stamp) -> Result<Sealed, Fail> {
    let above = if latest.time > 0 {
        Some(candidate(latest))
    } else {
        None
    };
    let history = history_with(alloc, COUNTER, replica, &[above])?;
    Ok(history.sealed(alloc, keys)?)
}

/// Puts such histories of five replicas.
fn put_entries(
    alloc: Global,
    keys: &KeyRing,
    latest: Stamp,
    entries: &mut List<Sealed>,
) -> Result<(), Fail> {
    for replica in 0..5 {
        entries.push(entry(alloc, keys, replica, latest)?)?;
    }
    Ok(())
}

fn sets(alloc: Global, keys: &KeyRing, latest: Stamp) -> Result<Sets, Fail> {
    let mut entries = List::new(alloc);
    put_entries(alloc, keys, latest, &mut entries)?;
    one_object(alloc, COUNTER, entries)
}

fn add_one(alloc: Global) -> Result<Body, Fail> {
    let parts = List::one(alloc, (COUNTER, Method::Add(1)))?;
    Ok(Body::Act(Act::new(parts)?))
}

/// The bytes of the request of client 1 with this number and these sets.
fn request(alloc: Global, keys: &KeyRing, number: u64, sets: Sets) -> Result<List<u8>, Fail> {
    let frame = Frame::Request {
        client: ClientId(1),
        number,
        round: 1,
        sets,
        body: add_one(alloc)?,
        mac: blank_mac(),
    };
    Ok(frame.signed(alloc, keys, Party::Replica(ReplicaId(0)))?)
}

/// Whether the frame is a reply that refuses, since the counter's history is full.
fn is_refusal(frame: &Frame) -> bool {
    match frame {
        Frame::Reply { verdict, .. } => {
            matches!(verdict, Verdict::Refused(Refusal::HistoryFull(COUNTER)))
        }
        _ => false,
    }
}

/// Whether the first of these letters has such a frame.
fn tells_full(alloc: Global, letters: &[Letter]) -> Result<bool, Fail> {
    let [letter, ..] = letters else {
        return Err("nothing is sent".into());
    };
    match decode(alloc, letter.text.as_slice()) {
        Ok(frame) => Ok(is_refusal(&frame)),
        Err(_) => Err("no frame".into()),
    }
}

/// Whether the act with this number, upon this stamp, is refused, since the counter's history is full.
fn is_full(
    alloc: Global,
    keys: &KeyRing,
    replica: &mut Replica,
    number: u64,
    latest: Stamp,
) -> Result<bool, Fail> {
    let sets = sets(alloc, keys, latest)?;
    let text = request(alloc, keys, number, sets)?;
    let letters = replica.step(text.as_slice())?;
    tells_full(alloc, letters.as_slice())
}

fn latest(replica: &Replica) -> Stamp {
    match replica.history(COUNTER) {
        Some(history) => history.latest(),
        None => Stamp::opening(),
    }
}

/// 1,023 acts are carried out, one upon the other, and one more is refused.
fn fills(alloc: Global, keys: &KeyRing, replica: &mut Replica) -> Result<(), Fail> {
    for number in 1..1024 {
        let above = latest(replica);
        holds(
            !is_full(alloc, keys, replica, number, above)?,
            "a candidate for each act",
        )?;
    }
    let above = latest(replica);
    holds(
        is_full(alloc, keys, replica, 1024, above)? && above.time == 1023,
        "no room for one more",
    )
}

#[test]
fn a_history_can_be_full(rt: HostRuntime) -> Result<(), Fail> {
    fills(rt.alloc(), &keys()?, &mut started(rt.alloc())?)
}
