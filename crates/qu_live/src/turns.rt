ghost use Rattle.std.specs.Prelude.{◌≡◌};

use crate::Gate;
use crate::actors::Locks;
use qu_base::{ClientId, NoMemory};
use qu_lock::RunName;
use qu_objects::Op;
use qu_post::Post;
use qu_stepping::{step_client, step_replica};
use std::alloc::Global;
use std::sync::Wait;
use std::thread;

/// A worker goes after so many looks in a row at which it found nothing to do.
const IDLE_LOOKS: u32 = 1_000;

/// Takes steps until there is nothing to do for a while: of the actor at this place where it has one to take, and else
/// of the first that has one and whose lock is free. Whether there was memory for all of them.
pub fn work<N: RunName, R: Wait, G: Gate>(
    rt: &R,
    alloc: Global,
    locks: &Locks<N>,
    post: &Post,
    calls: &[(ClientId, Op)],
    gate: &G,
    place: usize,
) -> Result<(), NoMemory>
    requires { calls.now ≡ N.calls }
{
    let mut idle = 0;
    for _ in rt.forever() {
        if own_step(rt, alloc, locks, post, calls, gate, place)?
            || any_step(rt, alloc, locks, post, calls, gate)?
        {
            idle = 0;
        } else if idle < IDLE_LOOKS {
            idle += 1;
            thread::yield_now();
        } else {
            return Ok(());
        }
    }
    unreachable!()
}

/// The actor at this place takes a step, where it has one to take. The clients stand behind the replicas.
fn own_step<N: RunName, R: Wait, G: Gate>(
    rt: &R,
    alloc: Global,
    locks: &Locks<N>,
    post: &Post,
    calls: &[(ClientId, Op)],
    gate: &G,
    place: usize,
) -> Result<bool, NoMemory>
    requires { calls.now ≡ N.calls }
{
    if let Some(lock) = locks.replicas.get(place) {
        return step_replica(rt, alloc, post, gate, &mut *lock.lock(rt));
    }
    match locks.clients.get(place - locks.replicas.len()) {
        Some(lock) => step_client(rt, alloc, post, calls, gate, &mut *lock.lock(rt)),
        None => Ok(false),
    }
}

/// The first actor that has a step to take, and whose lock is free, takes it.
fn any_step<N: RunName, R: Wait, G: Gate>(
    rt: &R,
    alloc: Global,
    locks: &Locks<N>,
    post: &Post,
    calls: &[(ClientId, Op)],
    gate: &G,
) -> Result<bool, NoMemory>
    requires { calls.now ≡ N.calls }
{
    for lock in &locks.replicas {
        if let Some(mut kept) = lock.try_lock() {
            if step_replica(rt, alloc, post, gate, &mut *kept)? {
                return Ok(true);
            }
        }
    }
    for lock in &locks.clients {
        if let Some(mut kept) = lock.try_lock() {
            if step_client(rt, alloc, post, calls, gate, &mut *kept)? {
                return Ok(true);
            }
        }
    }
    Ok(false)
}
