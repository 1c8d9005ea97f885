ghost use Rattle.std.specs.Prelude.{◌≡◌, IsTrue};
ghost use Rattle.qu_history.specs.Sets.{entries_of};
ghost use Rattle.qu_stamp.specs.Group.{is_group};
ghost use Rattle.qu_class.specs.Class.{is_in_sets, listed_stamp, is_of_group, agrees, all_agree, first_absent, inline_class, with_members};
ghost use Rattle.qu_class.specs.Rows.{HasGroup};

use super::Class;
use super::repairable::{is_latest, object_base};
use qu_base::{Bounds, ObjectId};
use qu_history::Sets;
use qu_stamp::{Candidate, Group, Stamp};

/// The class of an object that has this class by its own histories: where a candidate is to be added as it is, the
/// members of its group are asked for.
#[tactic(auto, unfolding(crate::specs::Class::with_members))]
pub(super) fn with_members(sets: &Sets, bounds: &Bounds, class: Class) -> Class
    ensures value { result ≡ with_members bounds.now sets.now class }
    ensures group { HasGroup class }
{
    match class {
        Class::InlineMethod(base) => inline_class(sets, bounds, &base),
        Class::Method(_)
        | Class::Copy
        | Class::InlineBarrier(_)
        | Class::Barrier { .. }
        | Class::Needs(_) => class,
    }
}

/// The class where this candidate would be added as it is, if it stood alone.
#[tactic(auto, unfolding(crate::specs::Class::inline_class))]
fn inline_class(sets: &Sets, bounds: &Bounds, base: &Candidate) -> Class
    ensures value { result ≡ inline_class bounds.now sets.now base.now }
    ensures group { IsTrue (is_group base.now.group) }
{
    if let Some(absent) = first_absent(sets, &base.group) {
        return Class::Needs(absent);
    }
    if all_agree(sets, bounds, base) {
        Class::InlineMethod(*base)
    } else {
        Class::Barrier { prior: base.stamp }
    }
}

/// The lowest member that is not in the sets.
fn first_absent(sets: &Sets, group: &Group) -> Option<ObjectId>
    ensures value { result ≡ first_absent sets.now group.now }
    ensures group { IsTrue (is_group group.now) }
{
    let absent = group
        .pairs()
        .iter()
        .find(|member| !is_in_sets(sets, member.0))?;
    Some(absent.0)
}

fn is_in_sets(sets: &Sets, object: ObjectId) -> bool
    ensures { result ≡ is_in_sets sets.now object }
{
    sets.objects().iter().any(|set| set.object == object)
}

/// Whether what the sets show of each member of the candidate's group agrees with it.
fn all_agree(sets: &Sets, bounds: &Bounds, candidate: &Candidate) -> bool
    ensures { result ≡ all_agree bounds.now sets.now candidate.now }
{
    candidate
        .group
        .pairs()
        .iter()
        .all(|member| agrees(sets, bounds, candidate, *member))
}

/// Whether the latest of the member's histories is the object candidate, and was accepted together with this one.
fn agrees(sets: &Sets, bounds: &Bounds, candidate: &Candidate, member: (ObjectId, u64)) -> bool
    ensures { result ≡ agrees bounds.now (entries_of member.0 sets.now) (listed_stamp candidate.now member)
        candidate.now.group }
{
    let base = object_base(sets, member.0, bounds);
    is_latest(sets, member.0, &base) && is_companion(&base, candidate, member)
}

/// Whether this is the candidate's companion on the object of a member of its group: it has the stamp that the group
/// lists, and the whole group.
#[tactic(auto, unfolding(qu_stamp::specs::Stamp::same_stamp))]
pub fn is_companion(base: &Candidate, candidate: &Candidate, member: (ObjectId, u64)) -> bool
    ensures { result ≡ is_of_group base.now (listed_stamp candidate.now member) candidate.now.group }
{
    base.stamp == member_stamp(candidate, member) && base.group == candidate.group
}

/// The stamp that the candidate's group lists for a member.
pub fn member_stamp(candidate: &Candidate, member: (ObjectId, u64)) -> Stamp
    ensures { result ≡ listed_stamp candidate.now member }
{
    Stamp {
        time: member.1,
        ..candidate.stamp
    }
}
