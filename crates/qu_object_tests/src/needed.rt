//! Objects that replicas say they need: those that enough of them name, the lower first, eight in all.

use super::made::{keys, read};
use qu_base::{ClientId, List, ObjectId, Party, ReplicaId};
use qu_client::Client;
use qu_frames::{Frame, Refusal, Verdict, blank_mac};
use qu_testing::holds;
use std::alloc::Global;
use std::test::Fail;

/// A round, the objects of which replicas 0 to 4 say in it that more has to be shown, those that are named behind it,
/// and words for that.
type Round = (u8, [u16; 5], &'static [ObjectId], &'static str);

/// The bytes with which a replica says so.
fn refusal(alloc: Global, replica: u8, round: u8, object: u16) -> Result<List<u8>, Fail> {
    let frame = Frame::Reply {
        replica: ReplicaId(replica),
        client: ClientId(1),
        number: 1,
        round,
        verdict: Verdict::Refused(Refusal::Needs(ObjectId(object))),
        culled: List::new(alloc),
        shown: List::new(alloc),
        mac: blank_mac(),
    };
    Ok(frame.signed(alloc, &keys()?, Party::Client(ClientId(1)))?)
}

/// Five replicas say so in a round.
fn say(alloc: Global, client: &mut Client, round: u8, objects: &[u16; 5]) -> Result<(), Fail> {
    for (replica, object) in (0..5).zip(objects) {
        let text = refusal(alloc, replica, round, *object)?;
        client.step(text.as_slice())?;
    }
    Ok(())
}

/// Whether these objects are named, in this round.
fn are_named(client: &Client, round: u8, objects: &[ObjectId]) -> bool {
    match client.work() {
        Some(work) => work.round == round && work.named.objects() == objects,
        None => false,
    }
}

/// The client, which has done nothing yet, begins to read, and names what it has to in each of these rounds.
fn names(alloc: Global, client: &mut Client, rounds: &[Round]) -> Result<(), Fail> {
    let op = read(alloc, ObjectId(0))?;
    holds(client.last_request().is_none(), "no request yet")?;
    client.invoke(op)?;
    for (round, said, named, words) in rounds {
        say(alloc, client, *round, said)?;
        holds(are_named(client, round.saturating_add(1), *named), *words)?;
    }
    Ok(())
}

fn started(alloc: Global) -> Result<Client, Fail> {
    Ok(Client::start(alloc, ClientId(1), keys()?, 7))
}

const ONE_ROUND: [Round; 1] = [(
    1,
    [9, 4, 7, 9, 4],
    &[ObjectId(0), ObjectId(4), ObjectId(9)],
    "those that two replicas name",
)];

#[test]
fn one_replica_more_than_lie_has_to_say_so(rt: HostRuntime) -> Result<(), Fail> {
    names(rt.alloc(), &mut started(rt.alloc())?, &ONE_ROUND)
}

const THREE: [ObjectId; 3] = [ObjectId(0), ObjectId(1), ObjectId(2)];

const FIVE: [ObjectId; 5] = [
    ObjectId(0),
    ObjectId(1),
    ObjectId(2),
    ObjectId(3),
    ObjectId(4),
];

const SEVEN: [ObjectId; 7] = [
    ObjectId(0),
    ObjectId(1),
    ObjectId(2),
    ObjectId(3),
    ObjectId(4),
    ObjectId(5),
    ObjectId(6),
];

const EIGHT: [ObjectId; 8] = [
    ObjectId(0),
    ObjectId(1),
    ObjectId(2),
    ObjectId(3),
    ObjectId(4),
    ObjectId(5),
    ObjectId(6),
    ObjectId(20),
];

const FIVE_ROUNDS: [Round; 5] = [
    (1, [1, 2, 1, 2, 1], &THREE, "three"),
    (2, [3, 4, 3, 4, 3], &FIVE, "five"),
    (3, [5, 6, 5, 6, 5], &SEVEN, "seven"),
    (4, [30, 20, 30, 20, 30], &EIGHT, "eight with the lower one"),
    (5, [7, 7, 7, 7, 7], &EIGHT, "no ninth one"),
];

#[test]
fn the_lower_one_is_named_first(rt: HostRuntime) -> Result<(), Fail> {
    names(rt.alloc(), &mut started(rt.alloc())?, &FIVE_ROUNDS)
}
