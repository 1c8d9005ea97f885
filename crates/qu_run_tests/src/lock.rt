//! Two threads share a replica and a client. Each has to be one that threads may share.

ghost use Rattle.std.specs.Prelude.{◌≡◌, Some};
ghost use Rattle.qu_base.specs.declared.party.Party.TheVariants as party;
ghost use Rattle.qu_replay.specs.Steps.{Asks, Replicates, IsTakenByReplica};
ghost use Rattle.qu_replay.specs.Replays.{opening_actor};

use qu_base::{Bounds, ClientId, List, Party, ReplicaId};
use qu_client::Client;
use qu_frames::{Input, LetterName};
use qu_lock::{ClientLock, ReplicaLock, RunName};
use qu_objects::KindName;
use qu_replica::Replica;
use qu_seal::KeyRing;
use qu_testing::holds;
use std::alloc::Global;
use std::marker::Brand;
use std::sync::Wait;
use std::test::Fail;
use std::thread;
use std::thread::Threads;

/// A frame without bytes, which every actor ignores, in a letter of the first client.
fn no_bytes(alloc: Global) -> Input
    ensures { IsTakenByReplica result }
{
    let name = LetterName {
        from: Party::Client(ClientId(1)),
        ticket: 0,
        place: 0,
    };
    Input::Frame(name, List::new(alloc))
}

/// The replica takes a step under the first of these tickets that may come.
fn step_replica<N: RunName, R: Wait>(
    rt: &R,
    alloc: Global,
    lock: &ReplicaLock<N>,
    taken: &mut bool,
) {
    let mut guard = lock.lock(rt);
    let kept = &mut *guard;
    for ticket in 1..3 {
        let input = no_bytes(alloc);
        if kept.admits(&input, ticket) {
            *taken = kept.step(input, ticket).is_ok();
            return;
        }
    }
}

/// How many steps a replica took, once two threads had it.
fn replica_shared<N: RunName + Send + Sync, R: Threads + Wait + Sync>(
    rt: &R,
    alloc: Global,
    me: ReplicaId,
    replica: Replica,
) -> Result<usize, Fail>
    requires { opening_actor N.setup (party.Replica me) ≡ Some (Replicates replica) }
{
    let lock = ReplicaLock::<N>::new(alloc, me, replica);
    let shared = &lock;
    let mut taken = [false, false];
    thread::for_each_mut(
        rt,
        &mut taken,
        2,
        &|_, mine| step_replica(rt, alloc, shared, mine),
    );
    holds(taken[0] && taken[1], "each thread takes a step")?;
    Ok(lock.into_inner().steps().len())
}

/// The client ticks under the first of these tickets that may come.
fn step_client<N: RunName, R: Wait>(rt: &R, lock: &ClientLock<N>, taken: &mut bool) {
    let mut guard = lock.lock(rt);
    let kept = &mut *guard;
    for ticket in 1..3 {
        if kept.admits(&Input::Tick, ticket) {
            *taken = kept.step(Input::Tick, ticket).is_ok();
            return;
        }
    }
}

/// How many steps a client took, once two threads had it.
fn client_shared<N: RunName + Send + Sync, R: Threads + Wait + Sync>(
    rt: &R,
    alloc: Global,
    me: ClientId,
    client: Client,
) -> Result<usize, Fail>
    requires { opening_actor N.setup (party.Client me) ≡ Some (Asks client) }
{
    let lock = ClientLock::<N>::new(alloc, me, client);
    let shared = &lock;
    let mut taken = [false, false];
    thread::for_each_mut(rt, &mut taken, 2, &|_, mine| step_client(rt, shared, mine));
    holds(taken[0] && taken[1], "each thread takes a step")?;
    Ok(lock.into_inner().steps().len())
}

/// The steps that replica 0 of a run took, once two threads had it.
fn replica_of_run<R: Threads + Wait + Sync>(
    rt: &R,
    alloc: Global,
    bounds: &Bounds,
) -> Result<usize, Fail> {
    let me = ReplicaId(0);
    if bounds.n() == 0 {
        return Err("no replicas".into());
    }
    let keys = KeyRing::derive(7, bounds, 1);
    let replica = Replica::start(alloc, me, keys, &[KindName::Counter])?;
    replica_shared::<Brand, R>(rt, alloc, me, replica)
}

/// The steps that client 1 of a run took, once two threads had it.
fn client_of_run<R: Threads + Wait + Sync>(
    rt: &R,
    alloc: Global,
    bounds: &Bounds,
) -> Result<usize, Fail> {
    let me = ClientId(1);
    let keys = KeyRing::derive(7, bounds, 1);
    let client = Client::start(alloc, me, keys, 7);
    client_shared::<Brand, R>(rt, alloc, me, client)
}

#[test]
fn a_replica_is_shared(rt: HostRuntime) -> Result<(), Fail> {
    let steps = replica_of_run(&rt, rt.alloc(), &Bounds::new(1)?)?;
    holds(steps == 2, "each step is kept")
}

#[test]
fn a_client_is_shared(rt: HostRuntime) -> Result<(), Fail> {
    let steps = client_of_run(&rt, rt.alloc(), &Bounds::new(1)?)?;
    holds(steps == 2, "each step is kept")
}
