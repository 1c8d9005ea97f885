ghost use Rattle.std.specs.Prelude.{◌≡◌, ◌≤◌, length, IfOk};
ghost use Rattle.qu_base.specs.declared.limits.TheConstants.{LAST_CLIENT, OBJECT_IDS};
ghost use Rattle.qu_base.specs.Bounds.{replicas};
ghost use Rattle.qu_world.specs.State.{kinds_at, opening_replicas, opening_clients};

use qu_base::{ClientId, NoMemory, Party, ReplicaId};
use qu_client::Client;
use qu_objects::KindName;
use qu_replica::Replica;
use qu_seal::KeyRing;
use qu_trace::Setup;
use std::alloc::Global;

/// The replicas of a run, as they begin. A faulty one keeps nothing.
pub fn start_replicas(alloc: Global, keys: KeyRing, setup: &Setup) -> Result<Vec<Replica>, NoMemory>
    requires { length setup.now.kinds ≤ OBJECT_IDS }
    ensures { IfOk result (λ started. started.items ≡ opening_replicas 0 (replicas keys.bounds) keys
        (kinds_at setup.now)) }
{
    let mut started = Vec::new(alloc);
    let count = keys.bounds().n();
    for number in 0..count {
        let me = ReplicaId(number);
        started.push(Replica::start(alloc, me, keys, kinds_at(setup, me))?)?;
    }
    Ok(started)
}

/// The kinds of the objects that a replica keeps.
fn kinds_at(setup: &Setup, me: ReplicaId) -> &[KindName]
    requires { length setup.now.kinds ≤ OBJECT_IDS }
    ensures value { result.now ≡ kinds_at setup.now me.0 }
    ensures few { length result.now ≤ OBJECT_IDS }
{
    if setup.is_faulty(Party::Replica(me)) {
        &[]
    } else {
        setup.kinds.as_slice()
    }
}

/// So many clients of a run with these keys, which are of this seed, as they begin; the first has number 1.
pub fn start_clients(
    alloc: Global,
    keys: KeyRing,
    seed: u64,
    count: u16,
) -> Result<Vec<Client>, NoMemory>
    requires few { count ≤ LAST_CLIENT }
    requires seed { seed ≡ keys.seed }
    ensures { IfOk result (λ started. started.items ≡ opening_clients 1 count keys) }
{
    let mut started = Vec::new(alloc);
    for before in 0..count {
        started.push(Client::start(alloc, ClientId(before + 1), keys, seed))?;
    }
    Ok(started)
}
