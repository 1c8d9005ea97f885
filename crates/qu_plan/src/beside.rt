ghost use Rattle.std.specs.Prelude.{◌≡◌};
ghost use Rattle.std.specs.List.{list_any};
ghost use Rattle.qu_history.specs.declared.sealed.Sealed.{Sealed};
ghost use Rattle.qu_class.specs.Class.{is_copy};
ghost use Rattle.qu_plan.specs.Beside.{has_member, is_beside, reads, is_seen};

use qu_base::{Bounds, ObjectId};
use qu_class::{Class, classify, is_shown_of_kind};
use qu_history::{History, Sealed, Sets};
use qu_stamp::Candidate;

/// Whether what is chosen on this object decides the plan of the target.
pub fn is_seen(sets: &Sets, target: ObjectId, over: ObjectId, bounds: &Bounds) -> bool
    ensures { result ≡ is_seen bounds.now sets.now target over }
{
    target == over || (is_copy(&classify(sets, over, bounds)) && reads(sets, target, over, bounds))
}

/// Whether what may be chosen on the first object was accepted together with a candidate on the other one.
pub fn reads(sets: &Sets, over: ObjectId, object: ObjectId, bounds: &Bounds) -> bool
    ensures { result ≡ reads bounds.now sets.now over object }
{
    reads_any(sets, over, object, bounds, sets.find(over))
}

fn reads_any(
    sets: &Sets,
    over: ObjectId,
    object: ObjectId,
    bounds: &Bounds,
    entries: &[Sealed],
) -> bool
    ensures { result ≡ list_any (λ (entry : Sealed). list_any (is_beside bounds.now sets.now over object)
        entry.history.candidates) entries.now }
{
    entries.iter().any(|entry| reads_in(sets, over, object, bounds, &entry.history))
}

fn reads_in(
    sets: &Sets,
    over: ObjectId,
    object: ObjectId,
    bounds: &Bounds,
    history: &History,
) -> bool
    ensures { result ≡ list_any (is_beside bounds.now sets.now over object) history.now.candidates }
{
    history.candidates().iter().any(|candidate| is_beside(sets, over, object, bounds, candidate))
}

/// Candidates without a group are not counted.
fn is_beside(
    sets: &Sets,
    over: ObjectId,
    object: ObjectId,
    bounds: &Bounds,
    candidate: &Candidate,
) -> bool
    ensures { result ≡ is_beside bounds.now sets.now over object candidate.now }
{
    has_member(object, candidate) && is_shown_of_kind(sets, over, false, bounds.r(), candidate)
}

fn has_member(object: ObjectId, candidate: &Candidate) -> bool
    ensures { result ≡ has_member object candidate.now }
{
    candidate
        .group
        .pairs()
        .iter()
        .any(|member| member.0 == object)
}

/// Whether an object of this class is copied.
pub fn is_copy(class: &Class) -> bool
    ensures { result ≡ is_copy class.now }
{
    match class {
        Class::Copy => true,
        Class::Method(_)
        | Class::InlineMethod(_)
        | Class::InlineBarrier(_)
        | Class::Barrier { .. }
        | Class::Needs(_) => false,
    }
}
