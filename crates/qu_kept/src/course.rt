ghost use Rattle.std.specs.Prelude.{◌≡◌, map, IfOk};
ghost use Rattle.qu_kept.specs.Remedy.{alone, whole_group, copied_at, copy_of, chosen_member, copied_member, joint_course, remedies_by};

use super::Remedy;
use qu_base::{List, NoMemory, ObjectId};
use qu_stamp::{Candidate, Group};
use std::alloc::Global;

/// What mends an object, and the objects that are mended with it.
#[derive(Drop)]
pub struct Course {
    pub remedy: Remedy,
    /// These objects, each with the time of what is shown or copied there; none where the object is mended alone.
    pub group: Group,
    /// Where there are such, each with its remedy.
    pub members: List<(ObjectId, Remedy)>,
}

impl Course {
    /// The object is mended alone.
    pub fn alone(alloc: Global, remedy: Remedy) -> Course
        ensures { result ≡ alone remedy }
    {
        Course {
            remedy,
            group: Group::none(),
            members: List::new(alloc),
        }
    }

    /// What a plan copies on these objects is copied on all of them.
    pub fn joint(
        alloc: Global,
        target: ObjectId,
        joint: &[(ObjectId, Candidate)],
    ) -> Result<Course, NoMemory>
        ensures { IfOk result (λ course. course ≡ joint_course target joint.now) }
    {
        let chosen = chosen_members(alloc, joint)?;
        Ok(Course {
            remedy: copy_of(target, copied_at(target, joint)),
            group: group_of(chosen.as_slice()),
            members: copied_members(alloc, joint)?,
        })
    }

    /// The objects that are mended, each with what mends it: those of the group, or the target.
    #[tactic(auto, unfolding(crate::specs::Remedy::remedies_by))]
    pub fn remedies(
        self,
        alloc: Global,
        target: ObjectId,
    ) -> Result<List<(ObjectId, Remedy)>, NoMemory>
        ensures { IfOk result (λ remedies. remedies ≡ remedies_by target self self.group) }
    {
        match self.group.pairs() {
            [] => List::one(alloc, (target, self.remedy)),
            _ => Ok(self.members),
        }
    }
}

/// The group of these members, none where they are none of a group.
pub fn group_of(members: &[(ObjectId, u64)]) -> Group
    ensures { result ≡ whole_group members.now }
{
    match Group::new(members) {
        Some(group) => group,
        None => Group::none(),
    }
}

/// The candidate that is copied on the object.
fn copied_at(object: ObjectId, joint: &[(ObjectId, Candidate)]) -> Option<Candidate>
    ensures { result ≡ copied_at object joint.now }
{
    let part = joint.iter().find(|part| part.0 == object)?;
    Some(part.1)
}

/// A plan copies its target.
fn copy_of(target: ObjectId, chosen: Option<Candidate>) -> Remedy
    ensures { result ≡ copy_of target chosen }
{
    match chosen {
        Some(chosen) => Remedy::Fresh {
            barrier: false,
            prior: chosen.stamp,
        },
        None => Remedy::Unplanned(target),
    }
}

/// The objects that are copied together, each with the time of what is copied there.
fn chosen_members(
    alloc: Global,
    joint: &[(ObjectId, Candidate)],
) -> Result<List<(ObjectId, u64)>, NoMemory>
    ensures { IfOk result (λ members. members ≡ map chosen_member joint.now) }
{
    let mut members = List::new(alloc);
    for part in joint {
        members.push((part.0, part.1.stamp.time))?;
    }
    Ok(members)
}

/// Each with its remedy.
fn copied_members(
    alloc: Global,
    joint: &[(ObjectId, Candidate)],
) -> Result<List<(ObjectId, Remedy)>, NoMemory>
    ensures { IfOk result (λ members. members ≡ map copied_member joint.now) }
{
    let mut members = List::new(alloc);
    for part in joint {
        let copied = Remedy::Fresh {
            barrier: false,
            prior: part.1.stamp,
        };
        members.push((part.0, copied))?;
    }
    Ok(members)
}
