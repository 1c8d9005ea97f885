ghost use Rattle.std.specs.Prelude.{◌≡◌, ◌<◌, IfOk};
ghost use Rattle.std.specs.Option.{option_copied};
ghost use Rattle.qu_base.specs.declared.limits.TheConstants.{REPLICA_IDS};
ghost use Rattle.qu_waiting.specs.Slots.{is_running, fetch_under, with_fetch, with_fetches, with_vote, with_votes, without_fetch};

use crate::fetching::Fetching;
use crate::running::Running;
use qu_base::{List, NoMemory, ObjectId, ReplicaId};
use qu_stamp::Stamp;
use std::alloc::Global;

/// Whether it is of the version under this key.
#[tactic(auto, unfolding(qu_stamp::specs::Stamp::same_stamp))]
fn is_of(running: &Running, object: ObjectId, stamp: &Stamp) -> bool
    ensures { result ≡ is_running object stamp.now running.now }
{
    running.object == object && running.stamp == *stamp
}

/// The fetch with this answer of a replica, where it is of the version under the key.
fn voted(
    alloc: Global,
    running: &Running,
    object: ObjectId,
    stamp: &Stamp,
    replica: ReplicaId,
    text: &List<u8>,
) -> Result<Running, NoMemory>
    requires { replica.0 < REPLICA_IDS }
    ensures { IfOk result (λ made. made ≡ with_vote object stamp.now replica text.now running.now) }
{
    let mut made = running.copy()?;
    if is_of(&made, object, stamp) {
        made.answers.take(replica, text.copy(alloc)?)?;
    }
    Ok(made)
}

/// The fetch of the version under this key.
pub fn fetch_under<'a>(
    fetching: &'a [Running],
    object: ObjectId,
    stamp: &Stamp,
) -> Option<&'a Running>
    ensures { option_copied result ≡ fetch_under object stamp.now fetching.now }
{
    fetching
        .iter()
        .find(|running| is_of(running, object, stamp))
}

/// The fetches with this answer of a replica to that of the version under the key.
#[tactic(auto, unfolding(crate::specs::Slots::with_votes))]
pub fn with_votes(
    alloc: Global,
    fetching: &[Running],
    object: ObjectId,
    stamp: &Stamp,
    replica: ReplicaId,
    text: &List<u8>,
) -> Result<List<Running>, NoMemory>
    requires { replica.0 < REPLICA_IDS }
    ensures { IfOk result (λ made. made ≡ with_votes object stamp.now replica text.now fetching.now) }
{
    let mut made = List::new(alloc);
    for running in fetching {
        made.push(voted(alloc, running, object, stamp, replica, text)?)?;
    }
    Ok(made)
}

/// The fetches without that of the version under the key.
#[tactic(auto, unfolding(crate::specs::Slots::without_fetch))]
pub fn without_fetch(
    alloc: Global,
    fetching: &[Running],
    object: ObjectId,
    stamp: &Stamp,
) -> Result<List<Running>, NoMemory>
    ensures { IfOk result (λ made. made ≡ without_fetch object stamp.now fetching.now) }
{
    let mut made = List::new(alloc);
    for running in fetching {
        if !is_of(running, object, stamp) {
            made.push(running.copy()?)?;
        }
    }
    Ok(made)
}

/// The fetches with those of the missing versions, of which each needs so many identical answers. One that runs
/// goes on.
#[tactic(auto, unfolding(crate::specs::Slots::with_fetches))]
pub fn with_fetches(
    alloc: Global,
    fetching: &[Running],
    need: u8,
    missing: &[(ObjectId, Stamp)],
) -> Result<List<Running>, NoMemory>
    ensures { IfOk result (λ made. made ≡ with_fetches need missing.now fetching.now) }
{
    let mut made = copies(alloc, fetching)?;
    for key in missing {
        made = with_fetch(alloc, made, need, key.0, key.1)?;
    }
    Ok(made)
}

/// The fetches with that of this version.
fn with_fetch(
    alloc: Global,
    mut fetching: List<Running>,
    need: u8,
    object: ObjectId,
    stamp: Stamp,
) -> Result<List<Running>, NoMemory>
    ensures { IfOk result (λ made. made ≡ with_fetch need (object, stamp) fetching) }
{
    if fetch_under(fetching.as_slice(), object, &stamp).is_some() {
        return Ok(fetching);
    }
    fetching.push(Running {
        object,
        stamp,
        answers: Fetching::start(alloc, need),
    })?;
    Ok(fetching)
}

/// Equal fetches.
fn copies(alloc: Global, fetching: &[Running]) -> Result<List<Running>, NoMemory>
    ensures { IfOk result (λ made. made ≡ fetching.now) }
{
    let mut made = List::new(alloc);
    for running in fetching {
        made.push(running.copy()?)?;
    }
    Ok(made)
}
