//! Runs on threads: that two replicas step at one time, and that the run is in the order which a gate forces.

use super::gates::{BothFirst, OneFirst};
use qu_base::{Bounds, ClientId, List, ObjectId, Party, ReplicaId};
use qu_gather::LiveFail;
use qu_live::{Gate, OpenGate, run_live};
use qu_objects::{Act, KindName, Method, Op};
use qu_testing::holds;
use qu_trace::{Event, Setup, Trace};
use std::alloc::Global;
use std::sync::Wait;
use std::test::Fail;
use std::thread::Threads;

/// The trace of a run on threads of one client, which adds 5 to a counter.
fn one_client<R: Threads + Wait + Sync, G: Gate>(
    rt: &R,
    alloc: Global,
    gate: &G,
) -> Result<Trace, Fail> {
    let setup = Setup {
        bounds: Bounds::new(1)?,
        seed: 7,
        clients: 1,
        kinds: List::one(alloc, KindName::Counter)?,
        liars: List::new(alloc),
    };
    let calls = [(ClientId(1), add(alloc, 5)?)];
    whole(run_live(rt, alloc, setup, &calls, gate))
}

/// The trace of a run on threads of two clients, each of which adds to a counter twice. Replica 0 says nothing.
fn mute_replica<R: Threads + Wait + Sync>(rt: &R, alloc: Global) -> Result<Trace, Fail> {
    let setup = Setup {
        bounds: Bounds::new(1)?,
        seed: 7,
        clients: 2,
        kinds: List::one(alloc, KindName::Counter)?,
        liars: List::one(alloc, Party::Replica(ReplicaId(0)))?,
    };
    let calls = [
        (ClientId(1), add(alloc, 1)?),
        (ClientId(2), add(alloc, 2)?),
        (ClientId(2), add(alloc, 3)?),
        (ClientId(1), add(alloc, 4)?),
    ];
    whole(run_live(rt, alloc, setup, &calls, &OpenGate))
}

/// Adds to the counter.
fn add(alloc: Global, number: u64) -> Result<Op, Fail> {
    let parts = List::one(alloc, (ObjectId(0), Method::Add(number)))?;
    Ok(Op::Act(Act::new(parts)?))
}

/// The trace, where there is one.
fn whole(run: Result<Trace, LiveFail>) -> Result<Trace, Fail> {
    match run {
        Ok(trace) => Ok(trace),
        Err(LiveFail::Torn(_)) => Err("the run is torn".into()),
        Err(LiveFail::NoMemory) => Err("no memory is left".into()),
    }
}

/// Whether an event is a tick.
fn is_tick(event: &Event) -> bool {
    match event {
        Event::Tick(_) => true,
        Event::Invoke(_, _) | Event::Deliver(_) | Event::Inject(_, _) => false,
    }
}

/// How many operations end in a trace.
fn ends(trace: &Trace) -> u64 {
    let ends = trace.entries.iter().filter(|entry| entry.ended.is_some());
    ends.count() as u64
}

/// At which actor each event of a trace happens.
fn actors_of(alloc: Global, trace: &Trace) -> Result<Vec<Party>, Fail> {
    let mut actors = Vec::new(alloc);
    let mut receivers = Vec::new(alloc);
    for entry in trace.entries.as_slice() {
        let actor = match &entry.event {
            Event::Invoke(me, _) | Event::Tick(me) => Party::Client(*me),
            Event::Deliver(number) => receiver(receivers.as_slice(), *number)?,
            Event::Inject(who, _) => *who,
        };
        actors.push(actor)?;
        for letter in entry.letters.as_slice() {
            receivers.push(letter.to)?;
        }
    }
    Ok(actors)
}

/// Who gets the letter of this number.
fn receiver(receivers: &[Party], number: u64) -> Result<Party, Fail> {
    let place = number.checked_sub(1).ok_or("letters are numbered from 1")?;
    match receivers.get(place as usize) {
        Some(who) => Ok(*who),
        None => Err("no such letter".into()),
    }
}

/// How many of these events happen at an actor.
fn count_of(actors: &[Party], who: Party) -> u64 {
    actors.iter().filter(|actor| **actor == who).count() as u64
}

/// Whether the first event at one of two actors stands before all at the other.
fn is_first(actors: &[Party], first: Party, second: Party) -> bool {
    let one = actors.iter().position(|actor| *actor == first);
    let other = actors.iter().position(|actor| *actor == second);
    match (one, other) {
        (Some(one), Some(other)) => one < other,
        (Some(_), None) => true,
        (None, _) => false,
    }
}

/// Whether a gate of these two replicas orders the run, and counts as many steps of each actor as the run has.
fn is_ordered<R: Threads + Wait + Sync>(
    rt: &R,
    alloc: Global,
    held: u8,
    first: u8,
) -> Result<(), Fail> {
    let gate = OneFirst::new(held, first);
    let trace = one_client(rt, alloc, &gate)?;
    let actors = actors_of(alloc, &trace)?;
    let actors = actors.as_slice();
    let [held, first] = [held, first].map(|number| Party::Replica(ReplicaId(number)));
    holds(gate.missed() == 0, "the held replica waits for the other")?;
    holds(
        is_first(actors, first, held),
        "the run is in the order of the gate",
    )?;
    for number in 0..6 {
        let who = Party::Replica(ReplicaId(number));
        holds(
            gate.passes(who) == count_of(actors, who),
            "each step passed the gate",
        )?;
    }
    let client = Party::Client(ClientId(1));
    holds(
        gate.passes(client) == count_of(actors, client),
        "each step passed the gate",
    )
}

#[test]
fn live_both_at_once(rt: HostRuntime) -> Result<(), Fail> {
    let gate = BothFirst::new();
    let trace = one_client(&rt, rt.alloc(), &gate)?;
    holds(!trace.entries.is_empty(), "there are events")?;
    holds(
        gate.missed() == 0,
        "both replicas are at the gate at one time",
    )
}

#[test]
fn live_order_by_gate(rt: HostRuntime) -> Result<(), Fail> {
    for held in 0..6 {
        for first in 0..6 {
            if held != first {
                is_ordered(&rt, rt.alloc(), held, first)?;
            }
        }
    }
    Ok(())
}

#[test]
fn live_adds_once(rt: HostRuntime) -> Result<(), Fail> {
    let trace = one_client(&rt, rt.alloc(), &OpenGate)?;
    holds(ends(&trace) == 1, "the operation ends once")
}

#[test]
fn live_ticks_where_a_replica_is_mute(rt: HostRuntime) -> Result<(), Fail> {
    let trace = mute_replica(&rt, rt.alloc())?;
    let ticks = trace.entries.iter().filter(|entry| is_tick(&entry.event));
    holds(ticks.count() > 0, "a client ticks")?;
    holds(ends(&trace) == 4, "each operation ends once")
}
