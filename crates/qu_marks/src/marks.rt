ghost use Rattle.std.specs.Prelude.{◌≡◌};
ghost use Rattle.qu_claims.specs.Effects.{is_on};
ghost use Rattle.qu_marks.specs.FirstMark.{mark_of, first_mark};

use qu_base::{ClientId, Digest, ObjectId};
use qu_known::Tracked;
use qu_objects::Act;
use qu_trace::earlier;

/// The first event after which a candidate of the update with this digest was decided.
#[tactic(auto, using(crate::proofs::Firsts::first_mark_more, crate::proofs::Firsts::first_mark_end))]
pub fn first_mark(tracked: &[Tracked], client: ClientId, act: &Act, digest: Digest) -> Option<u64>
    ensures { result ≡ first_mark client act.now digest tracked.now }
{
    let mut first = None;
    for candidate in tracked {
        first = earlier(first, mark_of(candidate, client, act, digest));
    }
    first
}

/// The mark of the candidate, where it is one of this update.
fn mark_of(tracked: &Tracked, client: ClientId, act: &Act, digest: Digest) -> Option<u64>
    ensures { result ≡ mark_of client act.now digest tracked.now }
{
    let stamp = &tracked.candidate.stamp;
    if is_on(tracked.object, act) && stamp.client == client && stamp.act == Some(digest) {
        tracked.decided
    } else {
        None
    }
}

/// Whether the object is one of those that the act names.
fn is_on(object: ObjectId, act: &Act) -> bool
    ensures { result ≡ is_on object act.now }
{
    act.parts().iter().any(|part| part.0 == object)
}
