ghost use Rattle.std.specs.Prelude.{◌≡◌, length, IfOk};
ghost use Rattle.qu_gather.specs.Gathered.{HaveEnded};

use crate::Gate;
use crate::actors::{Actors, Locks};
use crate::turns::work;
use qu_base::{ClientId, NoMemory};
use qu_lock::RunName;
use qu_objects::Op;
use qu_post::Post;
use qu_whole::have_ended;
use std::alloc::Global;
use std::sync::Wait;
use std::thread;
use std::thread::Threads;

/// Starts workers, one for each actor, again and again, until each client began all its calls and none is under way.
pub fn run_rounds<N: RunName + Send + Sync, R: Threads + Wait + Sync, G: Gate>(
    rt: &R,
    alloc: Global,
    post: &Post,
    calls: &[(ClientId, Op)],
    gate: &G,
    actors: Actors<N>,
) -> Result<Actors<N>, NoMemory>
    requires { calls.now ≡ N.calls }
    ensures ended { IfOk result (λ last. HaveEnded N.calls last.clients.items) }
    ensures replicas { IfOk result (λ last. length last.replicas.items ≡ length actors.replicas.items) }
    ensures clients { IfOk result (λ last. length last.clients.items ≡ length actors.clients.items) }
{
    let mut actors = actors;
    for _ in rt.forever() {
        let locks = actors.lock(alloc)?;
        round(rt, alloc, &locks, post, calls, gate)?;
        actors = locks.into_actors(alloc)?;
        if have_ended(calls, actors.clients.as_slice()) {
            return Ok(actors);
        }
    }
    unreachable!()
}

/// Lets a worker for each actor take steps, until they find nothing to do.
fn round<N: RunName + Send + Sync, R: Threads + Wait + Sync, G: Gate>(
    rt: &R,
    alloc: Global,
    locks: &Locks<N>,
    post: &Post,
    calls: &[(ClientId, Op)],
    gate: &G,
) -> Result<(), NoMemory>
    requires { calls.now ≡ N.calls }
{
    let mut results = Vec::new(alloc);
    for _ in 0..locks.replicas.len() + locks.clients.len() {
        results.push(Ok(()))?;
    }
    let count = results.len().max(1);
    thread::for_each_mut(
        rt,
        results.as_mut_slice(),
        count,
        &|place, made|
            requires { calls.now ≡ N.calls }
        { *made = work(rt, alloc, locks, post, calls, gate, place) },
    );
    for made in results {
        made?;
    }
    Ok(())
}
