ghost use Rattle.std.specs.Prelude.{◌≡◌, IfOk};
ghost use Rattle.qu_base.specs.Bounds.{replicas};
ghost use Rattle.qu_gather.specs.Correct.{correct_replicas, correct_clients};

use qu_base::{ClientId, NoMemory, Party, ReplicaId};
use qu_trace::Setup;
use std::alloc::Global;

/// The correct replicas of a setup, by rising number.
#[tactic(auto, unfolding(crate::specs::Correct::correct_replicas))]
pub fn correct_replicas(alloc: Global, setup: &Setup) -> Result<Vec<ReplicaId>, NoMemory>
    ensures { IfOk result (λ correct. correct.items ≡ correct_replicas setup.now (replicas setup.now.bounds)) }
{
    let mut correct = Vec::new(alloc);
    for place in 0..setup.bounds.n() {
        let me = ReplicaId(place);
        if !setup.is_faulty(Party::Replica(me)) {
            correct.push(me)?;
        }
    }
    Ok(correct)
}

/// The correct clients of a setup, by rising number.
#[tactic(auto, unfolding(crate::specs::Correct::correct_clients))]
pub fn correct_clients(alloc: Global, setup: &Setup) -> Result<Vec<ClientId>, NoMemory>
    ensures { IfOk result (λ correct. correct.items ≡ correct_clients setup.now setup.now.clients) }
{
    let mut correct = Vec::new(alloc);
    for place in 0..setup.clients {
        let me = ClientId(place + 1);
        if !setup.is_faulty(Party::Client(me)) {
            correct.push(me)?;
        }
    }
    Ok(correct)
}
