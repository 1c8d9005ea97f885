//! Two actors on threads, which wait for each other at a gate and find their letters at one post.

mod gates;
mod runs;

use gates::{InTurn, Together};
use qu_base::{Bounds, ClientId, List, NoMemory, Party, ReplicaId};
use qu_frames::{Input, Letter};
use qu_live::{Gate, OpenGate};
use qu_post::{Filed, Post, PostState};
use qu_testing::holds;
use std::alloc::Global;
use std::sync::Wait;
use std::test::Fail;
use std::thread;
use std::thread::Threads;

/// So many steps each actor takes.
const STEPS: u64 = 50;

const REPLICA: Party = Party::Replica(ReplicaId(0));

const CLIENT: Party = Party::Client(ClientId(1));

/// An actor that writes to another one in each of its steps, and how many of them it took.
#[derive(Drop)]
struct Worker {
    actor: Party,
    other: Party,
    taken: u64,
}

impl Worker {
    fn new(actor: Party, other: Party) -> Worker {
        Worker {
            actor,
            other,
            taken: 0,
        }
    }
}

/// Takes the letter that waits for an actor, where there is one, and files a step on it with a letter to the other.
fn step<R: Wait>(
    rt: &R,
    alloc: Global,
    post: &Post,
    actor: Party,
    other: Party,
) -> Result<(), NoMemory> {
    let mut state = post.lock(rt);
    let input = match state.take(actor) {
        Some((name, letter)) => Input::Frame(name, letter.into_text()),
        None => {
            state.begin();
            Input::Tick
        }
    };
    let letter = Letter {
        from: actor,
        to: other,
        text: List::one(alloc, 7)?,
    };
    let letters = List::one(alloc, letter)?;
    let ticket = state.ticket();
    state.file(Filed {
        ticket,
        actor,
        input,
        letters,
        ended: None,
    })
}

/// Takes the steps of an actor, up to the first for which there is no memory.
fn work<R: Wait, G: Gate>(rt: &R, alloc: Global, post: &Post, gate: &G, worker: &mut Worker) {
    for count in 0..STEPS {
        gate.pass(worker.actor, 1);
        if step(rt, alloc, post, worker.actor, worker.other).is_err() {
            return;
        }
        gate.pass(worker.actor, 2);
        worker.taken = count + 1;
    }
}

/// What stands under the lock of the post, once a replica and a client wrote to each other on threads of their own.
fn post_of_two<R: Threads + Wait + Sync, G: Gate>(
    rt: &R,
    alloc: Global,
    gate: &G,
) -> Result<PostState, Fail> {
    let post = Post::new(alloc, &Bounds::new(1)?, 1, &[])?;
    let shared = &post;
    let mut workers = [Worker::new(REPLICA, CLIENT), Worker::new(CLIENT, REPLICA)];
    thread::for_each_mut(
        rt,
        &mut workers,
        2,
        &|_, worker| work(rt, alloc, shared, gate, worker),
    );
    holds(
        workers[0].taken == STEPS && workers[1].taken == STEPS,
        "all steps were taken",
    )?;
    Ok(post.into_inner())
}

/// Whether the tickets of these steps are 0, 1, 2, ..
fn are_by_ticket(steps: &[Filed]) -> bool {
    steps
        .iter()
        .enumerate()
        .all(|(index, step)| step.ticket == index as u64)
}

/// Whether the replica and the client take these steps in turn, each on the letter of the step before, and the first
/// on none.
fn are_in_turn(steps: &[Filed]) -> bool {
    steps
        .iter()
        .enumerate()
        .all(|(index, step)| is_turn(index as u64, step))
}

fn is_turn(index: u64, step: &Filed) -> bool {
    let (actor, other) = if index % 2 == 0 {
        (REPLICA, CLIENT)
    } else {
        (CLIENT, REPLICA)
    };
    let before = index.checked_sub(1);
    let is_next = match &step.input {
        Input::Frame(name, _) => {
            name.from == other && Some(name.ticket) == before && name.place == 0
        }
        Input::Tick => before.is_none(),
        Input::Invoke(_) => false,
    };
    step.actor == actor && is_next
}

#[test]
fn actors_step_in_turn(rt: HostRuntime) -> Result<(), Fail> {
    let gate = InTurn::new();
    let state = post_of_two(&rt, rt.alloc(), &gate)?;
    let steps = state.journal();
    holds(steps.len() as u64 == 2 * STEPS, "each step is filed")?;
    holds(are_by_ticket(steps), "each ticket is given once")?;
    holds(are_in_turn(steps), "the gate orders the steps")?;
    holds(gate.missed() == 0, "each waits for the other")
}

#[test]
fn actors_step_at_one_time(rt: HostRuntime) -> Result<(), Fail> {
    let gate = Together::new();
    let state = post_of_two(&rt, rt.alloc(), &gate)?;
    let steps = state.journal();
    holds(steps.len() as u64 == 2 * STEPS, "each step is filed")?;
    holds(are_by_ticket(steps), "each ticket is given once")?;
    holds(gate.missed() == 0, "both are at the gate at one time")
}

#[test]
fn open_gate_lets_pass(rt: HostRuntime) -> Result<(), Fail> {
    let mut state = post_of_two(&rt, rt.alloc(), &OpenGate)?;
    holds(are_by_ticket(state.journal()), "each ticket is given once")?;
    holds(!state.quiet(), "a letter waits")?;
    for _ in 0..STEPS {
        let _letter = state.take(CLIENT);
    }
    holds(state.take(CLIENT).is_none(), "the bag is empty")
}
