ghost use Rattle.std.specs.Prelude.{◌≡◌, Some};
ghost use Rattle.qu_base.specs.declared.party.Party.TheVariants as party;
ghost use Rattle.qu_replay.specs.Steps.{Asks, Replicates};
ghost use Rattle.qu_replay.specs.Replays.{opening_actor};

use crate::{Kept, RunName};
use qu_base::{ClientId, ReplicaId};
use qu_client::Client;
use qu_replica::Replica;
use std::alloc::Global;
use std::sync::{Mutex, MutexGuard, Wait};

/// A replica of a run, which many threads share.
#[derive(Drop)]
pub struct ReplicaLock<N: RunName> {
    kept: Mutex<Kept<Replica, N>>,
}

/// A client of a run, which many threads share.
#[derive(Drop)]
pub struct ClientLock<N: RunName> {
    kept: Mutex<Kept<Client, N>>,
}

impl<N: RunName> ReplicaLock<N> {
    /// A replica with this name, as it begins in the run, where it is correct.
    pub fn new(alloc: Global, me: ReplicaId, replica: Replica) -> ReplicaLock<N>
        requires { opening_actor N.setup (party.Replica me) ≡ Some (Replicates replica) }
    {
        ReplicaLock::of(Kept::<Replica, N>::new(alloc, me, replica))
    }

    /// This replica, where its steps left it.
    pub fn of(kept: Kept<Replica, N>) -> ReplicaLock<N> {
        ReplicaLock {
            kept: Mutex::new(kept),
        }
    }

    /// The replica for this thread alone, as soon as no other thread has it.
    pub fn lock<R: Wait>(&self, rt: &R) -> MutexGuard<'_, Kept<Replica, N>> {
        self.kept.lock(rt)
    }

    /// The replica for this thread alone, unless another thread has it now.
    pub fn try_lock(&self) -> Option<MutexGuard<'_, Kept<Replica, N>>> {
        self.kept.try_lock()
    }

    /// The replica, which is shared no more.
    pub fn into_inner(self) -> Kept<Replica, N> {
        self.kept.into_inner()
    }
}

impl<N: RunName> ClientLock<N> {
    /// A client with this name, as it begins in the run, where it is correct.
    pub fn new(alloc: Global, me: ClientId, client: Client) -> ClientLock<N>
        requires { opening_actor N.setup (party.Client me) ≡ Some (Asks client) }
    {
        ClientLock::of(Kept::<Client, N>::new(alloc, me, client))
    }

    /// This client, where its steps left it.
    pub fn of(kept: Kept<Client, N>) -> ClientLock<N> {
        ClientLock {
            kept: Mutex::new(kept),
        }
    }

    /// The client for this thread alone, as soon as no other thread has it.
    pub fn lock<R: Wait>(&self, rt: &R) -> MutexGuard<'_, Kept<Client, N>> {
        self.kept.lock(rt)
    }

    /// The client for this thread alone, unless another thread has it now.
    pub fn try_lock(&self) -> Option<MutexGuard<'_, Kept<Client, N>>> {
        self.kept.try_lock()
    }

    /// The client, which is shared no more.
    pub fn into_inner(self) -> Kept<Client, N> {
        self.kept.into_inner()
    }
}
