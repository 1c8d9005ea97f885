ghost use Rattle.std.specs.Prelude.{◌≡◌, ◌≤◌, length, map, IfOk, Ok as Planned};
ghost use Rattle.qu_base.specs.Bounds.{quorum};
ghost use Rattle.qu_history.specs.Sets.{entries_of};
ghost use Rattle.qu_class.specs.declared.class.Class.TheVariants.{Copy};
ghost use Rattle.qu_class.specs.Class.{class_in};
ghost use Rattle.qu_plan.specs.Copying.{plan_of};
ghost use Rattle.qu_plan.specs.Linking.{linking};
ghost use Rattle.qu_mends.specs.Remedy.{inline_course, shown_member, copy_course, course_by, course_of, IsGrounded};

use qu_base::{Bounds, List, NoMemory, ObjectId};
use qu_class::{Class, classify, object_base};
use qu_history::Sets;
use qu_kept::{Course, Remedy, group_of};
use qu_plan::{CopyPlan, Fact, PlanFail, plan_copy};
use qu_stamp::Candidate;
use std::alloc::Global;

/// How the object is mended, by its class, and by its plan where it is to be copied.
pub(super) fn course_of(
    alloc: Global,
    sets: &Sets,
    target: ObjectId,
    bounds: &Bounds,
    facts: &[Fact],
) -> Result<Course, NoMemory>
    requires quorum { quorum bounds.now ≤ length (entries_of target sets.now) }
    ensures value { IfOk result (λ course. course ≡ course_of bounds.now sets.now (linking facts.now) target) }
    ensures grounds { IfOk result (λ course. IsGrounded bounds.now (entries_of target sets.now) course.remedy) }
{
    let class = classify(sets, target, bounds);
    course_by(alloc, sets, target, bounds, facts, class)
}

/// By this class.
#[tactic(auto, unfolding(crate::specs::Remedy::course_by))]
fn course_by(
    alloc: Global,
    sets: &Sets,
    target: ObjectId,
    bounds: &Bounds,
    facts: &[Fact],
    class: Class,
) -> Result<Course, NoMemory>
    requires { class ≡ class_in bounds.now sets.now target }
    ensures value { IfOk result (λ course. course ≡ course_by bounds.now sets.now target
        (plan_of bounds.now sets.now (linking facts.now) target) class) }
    ensures copied { class ≡ Copy → IfOk result
        (λ course. IsGrounded bounds.now (entries_of target sets.now) course.remedy) }
{
    match class {
        Class::Method(_) => Ok(Course::alone(alloc, Remedy::Nothing)),
        Class::InlineMethod(candidate) => inline(alloc, sets, candidate, bounds),
        Class::Copy => copy(alloc, sets, target, bounds, facts),
        Class::InlineBarrier(candidate) => Ok(Course::alone(alloc, Remedy::Shown(candidate))),
        Class::Barrier { prior } => Ok(Course::alone(
            alloc,
            Remedy::Fresh {
                barrier: true,
                prior,
            },
        )),
        Class::Needs(member) => Ok(Course::alone(alloc, Remedy::Unshown(member))),
    }
}

/// The candidate is added as it is, with all members of its group.
fn inline(
    alloc: Global,
    sets: &Sets,
    candidate: Candidate,
    bounds: &Bounds,
) -> Result<Course, NoMemory>
    ensures { IfOk result (λ course. course ≡ inline_course bounds.now sets.now candidate) }
{
    let group = group_of(candidate.group.pairs());
    let members = shown_members(alloc, sets, candidate.group.pairs(), bounds)?;
    Ok(Course {
        remedy: Remedy::Shown(candidate),
        group,
        members,
    })
}

/// What is chosen is copied, if there is a plan.
#[tactic(auto, unfolding(crate::specs::Remedy::copy_course))]
fn copy(
    alloc: Global,
    sets: &Sets,
    target: ObjectId,
    bounds: &Bounds,
    facts: &[Fact],
) -> Result<Course, NoMemory>
    requires { class_in bounds.now sets.now target ≡ Copy }
    ensures value { IfOk result (λ course. course
        ≡ copy_course target (plan_of bounds.now sets.now (linking facts.now) target)) }
    ensures grounds { IfOk result (λ course. IsGrounded bounds.now (entries_of target sets.now) course.remedy) }
{
    match plan_copy(alloc, sets, target, bounds, facts) {
        Ok(plan) => planned(alloc, target, &plan),
        Err(PlanFail::Stale(other)) => Ok(Course::alone(alloc, Remedy::Outdated(other))),
        Err(PlanFail::Needs(other)) => Ok(Course::alone(alloc, Remedy::Unplanned(other))),
        Err(PlanFail::NoMemory) => Err(NoMemory),
    }
}

/// By this plan.
#[tactic(auto, unfolding(crate::specs::Remedy::copy_course))]
fn planned(alloc: Global, target: ObjectId, plan: &CopyPlan) -> Result<Course, NoMemory>
    ensures { IfOk result (λ course. course ≡ copy_course target (Planned plan.now)) }
{
    Course::joint(alloc, target, plan.joint.as_slice())
}

/// The members, each with the object candidate there, as it is.
fn shown_members(
    alloc: Global,
    sets: &Sets,
    group: &[(ObjectId, u64)],
    bounds: &Bounds,
) -> Result<List<(ObjectId, Remedy)>, NoMemory>
    ensures { IfOk result (λ members. members ≡ map (shown_member bounds.now sets.now) group.now) }
{
    let mut members = List::new(alloc);
    for member in group {
        members.push((member.0, Remedy::Shown(object_base(sets, member.0, bounds))))?;
    }
    Ok(members)
}
