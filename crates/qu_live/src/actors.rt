ghost use Rattle.std.specs.Prelude.{◌≡◌, ◌≤◌, length, IfOk};
ghost use Rattle.qu_base.specs.Bounds.{replicas};
ghost use Rattle.qu_world.specs.Run.{IsSetup};
ghost use Rattle.qu_world.specs.State.{ring_of};
ghost use Rattle.qu_gather.specs.Correct.{correct_replicas, correct_clients};

use qu_base::{NoMemory, Party};
use qu_client::Client;
use qu_gather::{correct_clients, correct_replicas};
use qu_lock::{ClientLock, Kept, ReplicaLock, RunName};
use qu_replica::Replica;
use qu_seal::KeyRing;
use qu_trace::Setup;
use std::alloc::Global;

/// The correct parties of a run, each with the steps that it took; replicas and clients by rising number.
#[derive(Drop)]
pub struct Actors<N: RunName> {
    pub replicas: Vec<Kept<Replica, N>>,
    pub clients: Vec<Kept<Client, N>>,
}

/// The actors of a run behind their locks, which the workers share.
pub struct Locks<N: RunName> {
    pub replicas: Vec<ReplicaLock<N>>,
    pub clients: Vec<ClientLock<N>>,
}

/// By hand, so that a value is let go in one step wherever that is.
impl<N: RunName> Drop for Locks<N> {
    fn drop(self) {
        let Locks {
            replicas: _,
            clients: _,
        } = self;
    }
}

impl<N: RunName> Actors<N> {
    /// The correct parties of the run of this setup, as they begin.
    pub fn start(alloc: Global, setup: &Setup) -> Result<Actors<N>, NoMemory>
        requires named { setup.now ≡ N.setup }
        requires setup { IsSetup setup.now }
        ensures replicas { IfOk result (λ actors.
            length actors.replicas.items ≡ length (correct_replicas setup.now (replicas setup.now.bounds))) }
        ensures clients { IfOk result (λ actors.
            length actors.clients.items ≡ length (correct_clients setup.now setup.now.clients)) }
    {
        let keys = KeyRing::derive(setup.seed, &setup.bounds, setup.clients);
        Ok(Actors {
            replicas: start_replicas::<N>(alloc, keys, setup)?,
            clients: start_clients::<N>(alloc, keys, setup)?,
        })
    }

    /// Puts each behind a lock.
    pub fn lock(self, alloc: Global) -> Result<Locks<N>, NoMemory>
        ensures replicas { IfOk result (λ locks. length locks.replicas.items ≡ length self.replicas.items) }
        ensures clients { IfOk result (λ locks. length locks.clients.items ≡ length self.clients.items) }
    {
        let Actors { replicas, clients } = self;
        Ok(Locks {
            replicas: lock_replicas(alloc, replicas)?,
            clients: lock_clients(alloc, clients)?,
        })
    }
}

impl<N: RunName> Locks<N> {
    /// What stands behind the locks, which are shared no more.
    pub fn into_actors(self, alloc: Global) -> Result<Actors<N>, NoMemory>
        ensures replicas { IfOk result (λ actors. length actors.replicas.items ≡ length self.replicas.items) }
        ensures clients { IfOk result (λ actors. length actors.clients.items ≡ length self.clients.items) }
    {
        let Locks { replicas, clients } = self;
        Ok(Actors {
            replicas: unlock_replicas(alloc, replicas)?,
            clients: unlock_clients(alloc, clients)?,
        })
    }
}

fn start_replicas<N: RunName>(
    alloc: Global,
    keys: KeyRing,
    setup: &Setup,
) -> Result<Vec<Kept<Replica, N>>, NoMemory>
    requires named { setup.now ≡ N.setup }
    requires setup { IsSetup setup.now }
    requires keys { keys ≡ ring_of setup.now }
    ensures { IfOk result (λ started.
        length started.items ≡ length (correct_replicas setup.now (replicas setup.now.bounds))) }
{
    let mut started = Vec::new(alloc);
    let correct = correct_replicas(alloc, setup)?;
    for me in &correct {
        let replica = Replica::start(alloc, *me, keys, setup.kinds.as_slice())?;
        started.push(Kept::<Replica, N>::new(alloc, *me, replica))?;
    }
    Ok(started)
}

fn start_clients<N: RunName>(
    alloc: Global,
    keys: KeyRing,
    setup: &Setup,
) -> Result<Vec<Kept<Client, N>>, NoMemory>
    requires named { setup.now ≡ N.setup }
    requires setup { IsSetup setup.now }
    requires keys { keys ≡ ring_of setup.now }
    ensures { IfOk result (λ started. length started.items ≡ length (correct_clients setup.now setup.now.clients)) }
{
    let mut started = Vec::new(alloc);
    let correct = correct_clients(alloc, setup)?;
    for me in &correct {
        let client = Client::start(alloc, *me, keys, setup.seed);
        started.push(Kept::<Client, N>::new(alloc, *me, client))?;
    }
    Ok(started)
}

fn lock_replicas<N: RunName>(
    alloc: Global,
    replicas: Vec<Kept<Replica, N>>,
) -> Result<Vec<ReplicaLock<N>>, NoMemory>
    ensures { IfOk result (λ locks. length locks.items ≡ length replicas.items) }
{
    let mut locks = Vec::new(alloc);
    for kept in replicas {
        locks.push(ReplicaLock::of(kept))?;
    }
    Ok(locks)
}

fn lock_clients<N: RunName>(
    alloc: Global,
    clients: Vec<Kept<Client, N>>,
) -> Result<Vec<ClientLock<N>>, NoMemory>
    ensures { IfOk result (λ locks. length locks.items ≡ length clients.items) }
{
    let mut locks = Vec::new(alloc);
    for kept in clients {
        locks.push(ClientLock::of(kept))?;
    }
    Ok(locks)
}

fn unlock_replicas<N: RunName>(
    alloc: Global,
    locks: Vec<ReplicaLock<N>>,
) -> Result<Vec<Kept<Replica, N>>, NoMemory>
    ensures { IfOk result (λ replicas. length replicas.items ≡ length locks.items) }
{
    let mut replicas = Vec::new(alloc);
    for lock in locks {
        replicas.push(lock.into_inner())?;
    }
    Ok(replicas)
}

fn unlock_clients<N: RunName>(
    alloc: Global,
    locks: Vec<ClientLock<N>>,
) -> Result<Vec<Kept<Client, N>>, NoMemory>
    ensures { IfOk result (λ clients. length clients.items ≡ length locks.items) }
{
    let mut clients = Vec::new(alloc);
    for lock in locks {
        clients.push(lock.into_inner())?;
    }
    Ok(clients)
}
