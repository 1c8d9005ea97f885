ghost use Rattle.std.specs.Prelude.{◌≡◌, ◌⊎◌, All, IfOk, IfErr, IfSome, IsNone, ◌↔◌, Ok, Err, Some, None, true, false, filter_map, find};
ghost use Rattle.std.specs.Option.{option_map};
ghost use Rattle.qu_history.specs.Sets.{entries_of, method_at};
ghost use Rattle.qu_class.specs.declared.class.Class.TheVariants.{Copy};
ghost use Rattle.qu_class.specs.Class.{class_in};
ghost use Rattle.qu_class.specs.Rows.{AreWellFormed, MayBeRepaired};
ghost use Rattle.qu_plan.specs.Copying.{link_from, is_covered, is_stale, is_outstanding, first_fail, plan_fail_at, joint_part, joint_of, plan_of, Names};
ghost use Rattle.qu_plan.specs.Linking.{linking};

use super::choosing::chosen_on;
use super::fact::Fact;
use super::known::Known;
use crate::beside::is_copy;
use crate::linked::{is_above, is_at};
use qu_base::{Bounds, List, NoMemory, ObjectId};
use qu_class::{classify, is_companion, member_stamp};
use qu_history::Sets;
use qu_stamp::{Candidate, Stamp};
use std::alloc::Global;

/// What a copy copies.
#[derive(Drop)]
pub struct CopyPlan {
    /// The objects that are copied together, in rising order, each with the candidate upon whose stamp its copy rests.
    pub joint: List<(ObjectId, Candidate)>,
}

impl CopyPlan {
    /// An equal plan.
    pub fn copy(&self, alloc: Global) -> Result<CopyPlan, NoMemory>
        ensures { IfOk result (λ plan. plan ≡ self.now) }
    {
        Ok(CopyPlan {
            joint: self.joint.copy(alloc)?,
        })
    }
}

/// Why there is no plan.
#[derive(Clone, Copy, Debug, PartialEq, Eq)]
pub enum PlanFail {
    /// Number 15: what would be copied was accepted together with one on this object, the lowest such that can neither
    /// be copied with it nor is known to be decided: of this object more has to be known.
    Needs(ObjectId),
    /// Number 16: what would be copied was accepted together with one on this object, which has a later version that
    /// was made together with one of the target: of the target more has to be known.
    Stale(ObjectId),
    NoMemory,
}

impl From<NoMemory> for PlanFail {
    ghost use Rattle.qu_plan.specs.declared.plan.PlanFail.TheVariants as fail;

    ghost from_gives = { λ _ outcome. outcome ≡ fail.NoMemory };

    fn from(_error: NoMemory) -> PlanFail {
        PlanFail::NoMemory
    }
}

/// The plan of a copy on an object of class COPY, where the facts tell of each version of its evidence: what is chosen
/// there is copied, and with it on each object of its group what was accepted together with it, if it is not known to
/// be decided. For the same sets and facts an object has no part in two plans.
pub fn plan_copy(
    alloc: Global,
    sets: &Sets,
    target: ObjectId,
    bounds: &Bounds,
    facts: &[Fact],
) -> Result<CopyPlan, PlanFail>
    requires copy { class_in bounds.now sets.now target ≡ Copy }
    ensures value { IfOk result (λ plan. plan_of bounds.now sets.now (linking facts.now) target ≡ Ok plan) }
    ensures needs { (object : ObjectId) → result ≡ Err (PlanFail.Needs object)
        → plan_of bounds.now sets.now (linking facts.now) target ≡ Err (PlanFail.Needs object) }
    ensures stale { (object : ObjectId) → result ≡ Err (PlanFail.Stale object)
        → plan_of bounds.now sets.now (linking facts.now) target ≡ Err (PlanFail.Stale object) }
    ensures sound { IfOk result (λ plan. All
        (λ part. MayBeRepaired bounds.now (entries_of part.0 sets.now) false part.1) plan.joint) }
    ensures one_plan { IfOk result (λ plan. (other object : ObjectId) (besides : CopyPlan)
        → plan_of bounds.now sets.now (linking facts.now) other ≡ Ok besides
        → Names plan.joint object → Names besides.joint object → plan ≡ besides) }
{
    let known = Known::new(alloc, sets, bounds, facts)?;
    let chosen = chosen_on(&known, target);
    Ok(CopyPlan {
        joint: joint_of(alloc, &known, target, chosen)?,
    })
}

/// The objects that are copied together, where this is chosen on the target, or why they cannot be.
#[tactic(auto, unfolding(crate::specs::Copying::joint_of))]
fn joint_of(
    alloc: Global,
    known: &Known<'_>,
    target: ObjectId,
    candidate: Candidate,
) -> Result<List<(ObjectId, Candidate)>, PlanFail>
    requires { AreWellFormed known.now.bounds (entries_of target known.now.sets) }
    ensures none_left { IfOk result (λ joint. first_fail known.now.bounds known.now.sets (linking known.now.facts)
        target candidate ≡ None) }
    ensures value { IfOk result (λ joint. joint
        ≡ joint_of known.now.bounds known.now.sets (linking known.now.facts) target candidate candidate.group) }
    ensures formed { IfOk result (λ joint. All
        (λ part. AreWellFormed known.now.bounds (entries_of part.0 known.now.sets)) joint) }
    ensures failed { IfErr result (λ why. (why ≡ PlanFail.NoMemory)
        ⊎ (first_fail known.now.bounds known.now.sets (linking known.now.facts) target candidate ≡ Some why)) }
{
    match candidate.group.pairs() {
        [] => Ok(List::one(alloc, (target, candidate))?),
        members => joint_parts(alloc, known, target, &candidate, members),
    }
}

/// The members' objects that join, each with what is chosen there, or why another one cannot be left: of the lowest
/// member that is neither copied with the candidate nor known to be decided.
fn joint_parts(
    alloc: Global,
    known: &Known<'_>,
    target: ObjectId,
    candidate: &Candidate,
    members: &[(ObjectId, u64)],
) -> Result<List<(ObjectId, Candidate)>, PlanFail>
    ensures none_left { IfOk result (λ joint. find
        (is_outstanding known.now.bounds known.now.sets (linking known.now.facts) target candidate.now) members.now
        ≡ None) }
    ensures value { IfOk result (λ joint. joint
        ≡ filter_map (joint_part known.now.bounds known.now.sets (linking known.now.facts) candidate.now) members.now) }
    ensures formed { IfOk result (λ joint. All
        (λ part. AreWellFormed known.now.bounds (entries_of part.0 known.now.sets)) joint) }
    ensures failed { IfErr result (λ why. (why ≡ PlanFail.NoMemory) ⊎ (option_map
        (plan_fail_at known.now.bounds known.now.sets (linking known.now.facts) target candidate.now)
        (find (is_outstanding known.now.bounds known.now.sets (linking known.now.facts) target candidate.now)
        members.now) ≡ Some why)) }
{
    let mut joint = List::new(alloc);
    for member in members {
        if let Some(part) = joint_part(known, candidate, *member) {
            joint.push(part)?;
        } else if let Some(why) = left_at(known, target, candidate, *member) {
            return Err(why);
        }
    }
    Ok(joint)
}

/// The member's object with what is chosen there, if it is copied with the candidate.
#[tactic(auto, unfolding(crate::specs::Copying::is_joined))]
fn joint_part(
    known: &Known<'_>,
    candidate: &Candidate,
    member: (ObjectId, u64),
) -> Option<(ObjectId, Candidate)>
    ensures value { result ≡ joint_part known.now.bounds known.now.sets (linking known.now.facts) candidate.now member }
    ensures formed { IfSome result (λ part. AreWellFormed known.now.bounds (entries_of part.0 known.now.sets)) }
{
    if !is_copy(&classify(known.sets(), member.0, known.bounds())) {
        return None;
    }
    let chosen = chosen_on(known, member.0);
    if is_companion(&chosen, candidate, member) {
        Some((member.0, chosen))
    } else {
        None
    }
}

/// Why there is no plan where this member is not copied; nothing, if it is known to be decided.
fn left_at(
    known: &Known<'_>,
    target: ObjectId,
    candidate: &Candidate,
    member: (ObjectId, u64),
) -> Option<PlanFail>
    ensures covered { IsNone result
        ↔ (is_covered known.now.bounds known.now.sets (linking known.now.facts) target candidate.now member ≡ true) }
    ensures value { IfSome result (λ why. why
        ≡ plan_fail_at known.now.bounds known.now.sets (linking known.now.facts) target candidate.now member) }
{
    if is_covered(known, target, candidate, member) {
        None
    } else {
        Some(plan_fail_at(known, target, candidate, member))
    }
}

/// Whether the last version of the member's object that was made together with one of the target is this member.
fn is_covered(
    known: &Known<'_>,
    target: ObjectId,
    candidate: &Candidate,
    member: (ObjectId, u64),
) -> bool
    ensures { result
        ≡ is_covered known.now.bounds known.now.sets (linking known.now.facts) target candidate.now member }
{
    is_at(
        &member_stamp(candidate, member),
        link_from(known, target, member.0),
    )
}

/// Whether a later one was.
fn is_stale(
    known: &Known<'_>,
    target: ObjectId,
    candidate: &Candidate,
    member: (ObjectId, u64),
) -> bool
    ensures { result ≡ is_stale known.now.bounds known.now.sets (linking known.now.facts) target candidate.now member }
{
    is_above(
        &member_stamp(candidate, member),
        link_from(known, target, member.0),
    )
}

/// The link to the target that the version of an object has, if the object is of class METHOD.
#[tactic(auto, unfolding(crate::specs::Copying::link_from))]
fn link_from(known: &Known<'_>, target: ObjectId, object: ObjectId) -> Option<Stamp>
    ensures { result ≡ link_from (linking known.now.facts) target object
        (method_at known.now.bounds (entries_of object known.now.sets)) }
{
    match known.version(object) {
        Some(version) => known.link(object, &version.stamp, target),
        None => None,
    }
}

/// Why there is no plan where this member is left.
#[tactic(auto, unfolding(crate::specs::Copying::plan_fail_at))]
fn plan_fail_at(
    known: &Known<'_>,
    target: ObjectId,
    candidate: &Candidate,
    member: (ObjectId, u64),
) -> PlanFail
    ensures { result
        ≡ plan_fail_at known.now.bounds known.now.sets (linking known.now.facts) target candidate.now member }
{
    if is_stale(known, target, candidate, member) {
        PlanFail::Stale(member.0)
    } else {
        PlanFail::Needs(member.0)
    }
}
