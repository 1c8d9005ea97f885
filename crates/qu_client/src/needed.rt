ghost use Rattle.std.specs.Prelude.{◌≡◌, IfOk};
ghost use Rattle.qu_client.specs.Needed.{tells_need, is_needed, needed_objects, named_after};

use super::Counted;
use qu_base::{Bounds, List, NoMemory, OBJECT_IDS, ObjectId};
use qu_frames::{Refusal, Verdict};
use qu_question::Named;
use std::alloc::Global;

/// The objects that are named after a round with these replies: those before it, and what the replies need, the lower
/// one first.
#[tactic(auto, unfolding(crate::specs::Needed::named_after))]
pub fn named_after(
    alloc: Global,
    bounds: Bounds,
    replies: &[Counted],
    named: &Named,
) -> Result<Named, NoMemory>
    ensures { IfOk result (λ all. all ≡ named_after bounds replies.now named.now) }
{
    let needed = needed_objects(alloc, bounds, replies)?;
    let mut all = named.copy(alloc)?;
    for object in needed.as_slice() {
        all = all.with(alloc, *object)?;
    }
    Ok(all)
}

/// The objects of which more replies say that more has to be shown than replicas may lie, in rising order.
#[tactic(auto, unfolding(crate::specs::Needed::needed_objects))]
fn needed_objects(
    alloc: Global,
    bounds: Bounds,
    replies: &[Counted],
) -> Result<List<ObjectId>, NoMemory>
    ensures { IfOk result (λ objects. objects ≡ needed_objects bounds replies.now) }
{
    let mut objects = List::new(alloc);
    for number in 0..OBJECT_IDS {
        if is_needed(bounds, replies, ObjectId(number)) {
            objects.push(ObjectId(number))?;
        }
    }
    Ok(objects)
}

/// Whether more replies say so of the object than replicas may lie.
fn is_needed(bounds: Bounds, replies: &[Counted], object: ObjectId) -> bool
    ensures { result ≡ is_needed bounds replies.now object }
{
    let saying = replies
        .iter()
        .filter(|counted| tells_need(object, counted.verdict.get()))
        .count();
    saying > usize::from(bounds.b())
}

/// Whether the verdict says that more of the object has to be shown.
fn tells_need(object: ObjectId, verdict: &Verdict) -> bool
    ensures { result ≡ tells_need object verdict.now }
{
    match verdict {
        Verdict::Refused(Refusal::Needs(needed)) => needed.0 == object.0,
        _ => false,
    }
}
