ghost use Rattle.std.specs.Prelude.{◌≡◌, ◌≤◌, ◌↔◌, length, Some};
ghost use Rattle.qu_base.specs.Bounds.{quorum};
ghost use Rattle.qu_history.specs.Sets.{entries_of, method_at};
ghost use Rattle.qu_class.specs.Class.{is_full, barrier_class, class_of, class_in};
ghost use Rattle.qu_class.specs.Repairable.{barrier_candidate};
ghost use Rattle.qu_class.specs.Rows.{AreWellFormed, IsClassIn};

use super::members::with_members;
use super::repairable::{greatest_of_kind, is_latest, object_base};
use qu_base::{Bounds, ObjectId};
use qu_history::Sets;
use qu_stamp::{Candidate, Stamp};

/// What the histories of an object tell of it, and with it how it can be repaired.
#[derive(Clone, Copy, PartialEq, Eq)]
pub enum Class {
    /// A quorum holds this candidate, and none is later: an operation may rest upon it.
    Method(Candidate),
    /// None is later than this candidate, and so many hold it that it may be repaired: it is added as it is, together
    /// with the other members of its group.
    InlineMethod(Candidate),
    /// A quorum holds the latest candidate, a barrier: the object candidate may be copied above it.
    Copy,
    /// None is later than this barrier, and so many hold it that it may be repaired: it is added as it is.
    InlineBarrier(Candidate),
    /// What is latest cannot be repaired: a barrier has to be set above it, which rests upon this stamp.
    Barrier { prior: Stamp },
    /// What is latest may be repaired together with its group alone, and the sets do not have this object of it, the
    /// lowest such.
    Needs(ObjectId),
}

/// The class of an object by the histories of the sets. Of fewer than a quorum of its histories it tells nothing, but
/// that the object is not of class METHOD.
pub fn classify(sets: &Sets, object: ObjectId, bounds: &Bounds) -> Class
    ensures value { result ≡ class_in bounds.now sets.now object }
    ensures method { (candidate : Candidate) → (result ≡ Class.Method candidate)
        ↔ (method_at bounds.now (entries_of object sets.now) ≡ Some candidate) }
    ensures tells { quorum bounds.now ≤ length (entries_of object sets.now)
        → IsClassIn bounds.now sets.now object result }
{
    let class = class_of(sets, object, bounds);
    with_members(sets, bounds, class)
}

/// The candidate upon which an operation on the object may rest: that of class METHOD.
#[tactic(auto, using(crate::proofs::ClassRows::method_of_class))]
pub fn method_at(sets: &Sets, object: ObjectId, bounds: &Bounds) -> Option<Candidate>
    ensures { result ≡ method_at bounds.now (entries_of object sets.now) }
{
    match class_of(sets, object, bounds) {
        Class::Method(candidate) => Some(candidate),
        Class::InlineMethod(_)
        | Class::Copy
        | Class::InlineBarrier(_)
        | Class::Barrier { .. }
        | Class::Needs(_) => None,
    }
}

/// The first class that fits, by the histories of the object alone.
#[tactic(auto, unfolding(crate::specs::Class::class_of))]
fn class_of(sets: &Sets, object: ObjectId, bounds: &Bounds) -> Class
    ensures value { result ≡ class_of bounds.now (entries_of object sets.now) }
    ensures formed { AreWellFormed bounds.now (entries_of object sets.now) }
{
    let base = object_base(sets, object, bounds);
    if !is_latest(sets, object, &base) {
        return barrier_class(sets, object, bounds, base.stamp);
    }
    if is_full(sets, object, bounds, &base) {
        Class::Method(base)
    } else {
        Class::InlineMethod(base)
    }
}

/// The class where the object candidate, which has the stamp `prior`, is not the latest.
#[tactic(auto, unfolding(crate::specs::Class::barrier_class))]
fn barrier_class(sets: &Sets, object: ObjectId, bounds: &Bounds, prior: Stamp) -> Class
    ensures { result ≡ barrier_class bounds.now (entries_of object sets.now) prior
        (barrier_candidate bounds.now (entries_of object sets.now)) }
{
    match greatest_of_kind(sets, object, true, bounds.r()) {
        Some(barrier) if is_latest(sets, object, &barrier) => {
            if is_full(sets, object, bounds, &barrier) {
                Class::Copy
            } else {
                Class::InlineBarrier(barrier)
            }
        }
        _ => Class::Barrier { prior },
    }
}

/// Whether a quorum holds the candidate.
fn is_full(sets: &Sets, object: ObjectId, bounds: &Bounds, candidate: &Candidate) -> bool
    ensures { result ≡ is_full bounds.now (entries_of object sets.now) candidate.now }
{
    sets.count(object, candidate) >= bounds.q()
}
