ghost use Rattle.std.specs.Prelude.{◌≡◌, IfOk};
ghost use Rattle.std.specs.Option.{option_copied};
ghost use Rattle.qu_kept.specs.Remedy.{added_for, stored_by};

use super::Remedy;
use crate::copying::copied;
use qu_base::{ClientId, Digest, NoMemory, ObjectId};
use qu_objects::ObjState;
use qu_stamp::{Candidate, Group, LAST_TIME, Stamp};
use std::alloc::Global;

/// The candidate that the remedy adds to an object of which the sets show this latest stamp. What is made anew is made
/// for this client, upon sets with this digest, and with this group. None has a time after the last.
#[tactic(auto, unfolding(crate::specs::Remedy::added_for))]
pub fn added(
    client: ClientId,
    set: Digest,
    made: &Group,
    latest: &Stamp,
    remedy: &Remedy,
) -> Option<Candidate>
    ensures { result ≡ added_for client set made.now latest.now remedy.now }
{
    match remedy {
        Remedy::Shown(candidate) if candidate.stamp.time <= LAST_TIME => Some(*candidate),
        Remedy::Fresh { barrier, prior } => fresh(client, set, made, latest, *barrier, *prior),
        _ => None,
    }
}

/// The candidate above all that the sets show, a barrier or a copy, which rests upon this stamp.
#[tactic(auto, unfolding(crate::specs::Remedy::added_for))]
fn fresh(
    client: ClientId,
    set: Digest,
    made: &Group,
    latest: &Stamp,
    barrier: bool,
    prior: Stamp,
) -> Option<Candidate>
    ensures { result ≡ added_for client set made.now latest.now (Remedy.Fresh barrier prior) }
{
    if latest.time >= LAST_TIME {
        return None;
    }
    let stamp = Stamp {
        time: latest.time + 1,
        barrier,
        client,
        act: None,
        set,
    };
    Some(Candidate {
        stamp,
        prior,
        group: *made,
    })
}

/// What is stored with the candidate that is added to the object, of which this version was found: a copy's version.
#[tactic(auto, unfolding(crate::specs::Remedy::stored_by))]
pub fn stored(
    alloc: Global,
    object: ObjectId,
    candidate: &Candidate,
    remedy: &Remedy,
    version: Option<&ObjState>,
) -> Result<Option<ObjState>, NoMemory>
    ensures { IfOk result (λ stored. stored
        ≡ stored_by object candidate.now remedy.now (option_copied version.entry)) }
{
    match (remedy, version) {
        (Remedy::Fresh { barrier: false, .. }, Some(version)) => {
            Ok(Some(copied(alloc, version, object, candidate)?))
        }
        _ => Ok(None),
    }
}
