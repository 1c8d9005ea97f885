//! The second update of the stored case `two-adds` meets the conditions of the clause `one_round`, and ends as it says.

use qu_base::{Bounds, ClientId, List, ObjectId, Party, ReplicaId};
use qu_class::method_at;
use qu_frames::Frame;
use qu_history::{DigestedSets, HISTORY_LIMIT, Sets};
use qu_objects::{Answer, Item, KindName, Outcome};
use qu_script::{read_script, run_script};
use qu_seal::KeyRing;
use qu_stamp::{Candidate, LAST_TIME};
use qu_testing::holds;
use qu_trace::{DecodedTrace, Entry, Event, Setup, Trace};
use qu_world::World;
use std::alloc::Global;
use std::test::Fail;

const TWO_ADDS: &str = "bounds 1\nseed 7\nclients 1\nobject 0 counter\n\
    call 1 add 0 5\nflow\ncall 1 add 0 2\nflow\n";

const COUNTER: ObjectId = ObjectId(0);

const CLIENT: ClientId = ClientId(1);
/// The event at which the second update begins, counted from 0, and its first letter.
const BEGIN: usize = 23;

const FIRST: u64 = 23;

fn trace(alloc: Global) -> Result<Trace, Fail> {
    match read_script(alloc, TWO_ADDS.as_bytes()) {
        Ok(script) => Ok(run_script(alloc, &script).ok().ok_or("no run")?),
        Err(_) => Err("the script is refused".into()),
    }
}

/// A world of six replicas, one client and one counter.
fn started(alloc: Global) -> Result<World, Fail> {
    let setup = Setup {
        bounds: Bounds::new(1)?,
        seed: 7,
        clients: 1,
        kinds: List::one(alloc, KindName::Counter)?,
        liars: List::new(alloc),
    };
    Ok(World::start(alloc, setup)?)
}

/// The sets of the request with this number.
fn sets_of<'a>(run: &'a DecodedTrace<'a>, letter: u64) -> Option<&'a Sets> {
    match run.frame(letter)? {
        Frame::Request { sets, .. } => Some(sets),
        _ => None,
    }
}

/// Whether the replica has nothing above the candidate, its version, and room and time for one more.
fn is_ready(world: &World, replica: ReplicaId, base: &Candidate) -> Option<bool> {
    let history = world.history(replica, COUNTER)?;
    let version = world.replica(replica)?.version(COUNTER, &base.stamp);
    Some(
        !base.stamp.is_below(&history.latest())
            && version.is_some()
            && history.len() < HISTORY_LIMIT
            && base.stamp.time < LAST_TIME,
    )
}

/// The event is that this letter is delivered.
fn delivers(entry: &Entry, letter: u64) -> bool {
    matches!(entry.event, Event::Deliver(number) if number == letter)
}

/// The keys of the run.
fn keys() -> Result<KeyRing, Fail> {
    Ok(KeyRing::derive(7, &Bounds::new(1)?, 1))
}

/// Whether the replica is ready in the world, the event hands it its request, and all that is shown is right for it.
fn is_handed(
    keys: &KeyRing,
    world: &World,
    entry: &Entry,
    replica: u8,
    (sets, base): (&DigestedSets, &Candidate),
) -> bool {
    let me = ReplicaId(replica);
    is_ready(world, me, base) == Some(true)
        && delivers(entry, FIRST + u64::from(replica))
        && sets.are_right(me, keys)
}

/// The world goes along the events from this one up to another.
fn follow(
    alloc: Global,
    trace: &Trace,
    world: &mut World,
    (from, to): (usize, usize),
) -> Result<(), Fail> {
    for index in from..to {
        let entry = trace.entries.get(index).ok_or("no such event")?;
        world.follow(entry.event.copy(alloc)?)?;
    }
    Ok(())
}

/// Each of the five is ready when the request reaches it.
fn all_are_handed(
    alloc: Global,
    trace: &Trace,
    keys: &KeyRing,
    world: &mut World,
    shown: (&DigestedSets, &Candidate),
) -> Result<(), Fail> {
    follow(alloc, trace, world, (0, BEGIN + 1))?;
    for replica in 0..5 {
        let index = BEGIN + 1 + usize::from(replica);
        let entry = trace.entries.get(index).ok_or("no such event")?;
        holds(is_handed(keys, world, entry, replica, shown), "it is ready")?;
        follow(alloc, trace, world, (index, index + 1))?;
    }
    Ok(())
}

/// Each of the five is ready in a run in which these sets are requested.
fn is_quick(alloc: Global, trace: &Trace, sets: &Sets) -> Result<(), Fail> {
    let base = method_at(sets, COUNTER, &trace.setup.bounds).ok_or("the sets are not current")?;
    let keys = keys()?;
    let shown = DigestedSets::of(alloc, sets.copy()?)?;
    all_are_handed(alloc, trace, &keys, &mut started(alloc)?, (&shown, &base))
}

fn is_quick_run(alloc: Global, trace: &Trace) -> Result<(), Fail> {
    let run = DecodedTrace::of(alloc, trace)?;
    is_quick(alloc, trace, sets_of(&run, FIRST).ok_or("no request")?)
}

#[test]
fn the_preferred_replicas_are_ready(rt: HostRuntime) -> Result<(), Fail> {
    is_quick_run(rt.alloc(), &trace(rt.alloc())?)
}

/// Whether the five letters of this event go to replicas 0 to 4.
fn asks_the_preferred(entry: &Entry) -> bool {
    entry.letters.len() == 5
        && (0..5).all(|replica: u8| {
            entry
                .letters
                .get(usize::from(replica))
                .is_some_and(|letter| letter.to == Party::Replica(ReplicaId(replica)))
        })
}

#[test]
fn they_are_asked_and_no_others(rt: HostRuntime) -> Result<(), Fail> {
    let trace = trace(rt.alloc())?;
    let entry = trace.entries.get(BEGIN).ok_or("no such event")?;
    holds(asks_the_preferred(entry), "a letter to each")
}

fn is_told_seven(entry: &Entry) -> bool {
    match &entry.ended {
        Some((client, 2, Outcome::Done(Answer::Ok(items)))) => {
            *client == CLIENT && items.as_slice() == [Item::Number(7)].as_slice()
        }
        _ => false,
    }
}

/// Whether the reply of the replica is delivered at its event, at which the client sends nothing, and ends its
/// operation where it is the last.
fn is_heard(trace: &Trace, replica: u8) -> Option<bool> {
    let entry = trace.entries.get(BEGIN + 6 + usize::from(replica))?;
    let ends = if replica == 4 {
        is_told_seven(entry)
    } else {
        entry.ended.is_none()
    };
    Some(delivers(entry, FIRST + 5 + u64::from(replica)) && entry.letters.is_empty() && ends)
}

#[test]
fn the_last_of_their_replies_ends_it(rt: HostRuntime) -> Result<(), Fail> {
    let trace = trace(rt.alloc())?;
    for replica in 0..5 {
        let heard = is_heard(&trace, replica).ok_or("no such event")?;
        holds(heard, "one reply after another")?;
    }
    holds(trace.entries.len() == BEGIN + 11, "nothing more")
}
