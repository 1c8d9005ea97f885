use super::made::{history_with, keys, whole};
use qu_adversary::{fetched_of, reply_of, request_of, sealed_for};
use qu_base::{ClientId, List, ObjectId, Party, ReplicaId};
use qu_frames::{Body, Frame, Refusal, Verdict, receive};
use qu_history::{Sealed, SetOf, Sets};
use qu_objects::{Act, Method};
use qu_seal::KeyRing;
use qu_stamp::Stamp;
use qu_testing::holds;
use std::alloc::Global;
use std::test::Fail;

/// What a text brings a party.
#[derive(Clone, Copy)]
enum Brought {
    /// A request of this client by its number and round, and the object that is to be mended, if that is asked for.
    Request(ClientId, u64, u8, Option<ObjectId>),
    /// A reply of this replica by its number and round.
    Reply(ReplicaId, u64, u8),
    /// What this replica tells of a fetch.
    Fetched(ReplicaId),
}

fn mended(body: &Body) -> Option<ObjectId> {
    match body {
        Body::Mend(object) => Some(*object),
        _ => None,
    }
}

fn is_brought(frame: &Frame, wanted: Brought) -> bool {
    match (frame, wanted) {
        (
            Frame::Request {
                client,
                number,
                round,
                body,
                ..
            },
            Brought::Request(by, of, in_round, object),
        ) => *client == by && *number == of && *round == in_round && mended(body) == object,
        (
            Frame::Reply {
                replica,
                number,
                round,
                ..
            },
            Brought::Reply(by, of, in_round),
        ) => *replica == by && *number == of && *round == in_round,
        (Frame::Fetched { replica, .. }, Brought::Fetched(by)) => *replica == by,
        _ => false,
    }
}

/// Whether the text brings the party this, or nothing.
fn brings(alloc: Global, me: Party, text: &[u8], wanted: Option<Brought>) -> Result<bool, Fail> {
    let keys = keys()?;
    let frame = receive(alloc, &keys, me, text)?;
    Ok(match (&frame, wanted) {
        (Some(frame), Some(wanted)) => is_brought(frame, wanted),
        (None, None) => true,
        _ => false,
    })
}

/// Whether the text brings this to the one party, and nothing to the other.
fn is_for(
    alloc: Global,
    text: &List<u8>,
    (me, wanted): (Party, Brought),
    other: Party,
) -> Result<bool, Fail> {
    Ok(
        brings(alloc, me, text.as_slice(), Some(wanted))?
            && brings(alloc, other, text.as_slice(), None)?,
    )
}

/// The opening history of object 0 at replica 5, with an HMAC that is right for replica 2 alone.
fn sealed(alloc: Global, keys: &KeyRing) -> Result<Sealed, Fail> {
    let history = history_with(alloc, ObjectId(0), 5, &[])?;
    Ok(sealed_for(alloc, keys, ReplicaId(5), &history, &[ReplicaId(2)])?)
}

#[test]
fn a_sealed_history_is_right_for_those_that_are_named(rt: HostRuntime) -> Result<(), Fail> {
    let keys = keys()?;
    let sealed = sealed(rt.alloc(), &keys)?;
    let is_right_for_2 = sealed.is_right(rt.alloc(), ReplicaId(2), &keys)?;
    let is_right_for_3 = sealed.is_right(rt.alloc(), ReplicaId(3), &keys)?;
    holds(is_right_for_2 && !is_right_for_3, "for replica 2 alone")
}

/// A reply of replica 5 to round 3 of operation 4 of client 2, which shows a history.
fn made_reply(alloc: Global) -> Result<List<u8>, Fail> {
    let keys = keys()?;
    let verdict = Verdict::Refused(Refusal::Thin(ObjectId(0)));
    let shown = List::one(alloc, sealed(alloc, &keys)?)?;
    Ok(reply_of(
        alloc,
        &keys,
        ReplicaId(5),
        ClientId(2),
        4,
        3,
        verdict,
        shown,
    )?)
}

#[test]
fn a_client_takes_a_made_reply(rt: HostRuntime) -> Result<(), Fail> {
    let text = made_reply(rt.alloc())?;
    let wanted = Brought::Reply(ReplicaId(5), 4, 3);
    let other = Party::Client(ClientId(1));
    holds(
        is_for(
            rt.alloc(),
            &text,
            (Party::Client(ClientId(2)), wanted),
            other,
        )?,
        "for client 2 alone",
    )
}

/// The first version of object 0 with the value 7, from replica 5 to replica 2.
fn made_fetched(alloc: Global) -> Result<List<u8>, Fail> {
    let counter = [1, 0, 0, 0, 0, 0, 0, 0, 7, 0, 0];
    let stamp = Stamp::opening();
    let keys = keys()?;
    Ok(fetched_of(
        alloc,
        &keys,
        ReplicaId(5),
        ReplicaId(2),
        ObjectId(0),
        &stamp,
        &counter,
    )?)
}

#[test]
fn a_replica_takes_what_was_made_as_fetched(rt: HostRuntime) -> Result<(), Fail> {
    let text = made_fetched(rt.alloc())?;
    let wanted = Brought::Fetched(ReplicaId(5));
    let other = Party::Replica(ReplicaId(3));
    holds(
        is_for(
            rt.alloc(),
            &text,
            (Party::Replica(ReplicaId(2)), wanted),
            other,
        )?,
        "for replica 2 alone",
    )
}

/// Sets of object 0 that show no histories.
fn sets_of_object_0(alloc: Global) -> Result<Sets, Fail> {
    let object = ObjectId(0);
    let entries = List::new(alloc);
    whole(alloc, List::one(alloc, SetOf { object, entries })?)
}

/// The request of client 2 to replica 3 in round 3 of operation 4.
fn made_request(alloc: Global, body: &Body) -> Result<List<u8>, Fail> {
    let keys = keys()?;
    let sets = sets_of_object_0(alloc)?;
    Ok(request_of(alloc, &keys, ClientId(2), ReplicaId(3), 4, 3, &sets, body)?)
}

/// Whether such a request is for replica 3 alone, and asks that this object is mended, or for something else.
fn is_requested(alloc: Global, body: &Body, object: Option<ObjectId>) -> Result<bool, Fail> {
    let text = made_request(alloc, body)?;
    let wanted = Brought::Request(ClientId(2), 4, 3, object);
    let other = Party::Replica(ReplicaId(2));
    is_for(alloc, &text, (Party::Replica(ReplicaId(3)), wanted), other)
}

fn act(alloc: Global) -> Result<Body, Fail> {
    let parts = List::one(alloc, (ObjectId(0), Method::Add(5)))?;
    Ok(Body::Act(Act::new(parts)?))
}

#[test]
fn a_replica_takes_a_made_request(rt: HostRuntime) -> Result<(), Fail> {
    let body = act(rt.alloc())?;
    holds(
        is_requested(rt.alloc(), &body, None)?,
        "for replica 3 alone",
    )
}

#[test]
fn a_made_mend_names_its_object(rt: HostRuntime) -> Result<(), Fail> {
    let body = Body::Mend(ObjectId(0));
    holds(
        is_requested(rt.alloc(), &body, Some(ObjectId(0)))?,
        "the object",
    )
}
