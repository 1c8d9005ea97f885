ghost use Rattle.std.specs.Prelude.{◌≡◌, ◌↔◌, [], length, false, IsNone, IfSome, IsTrue};
ghost use Rattle.qu_stamp.specs.Group.{is_group_size, is_member_from, are_members_from, is_group, listed_time, is_group_below};

use super::LAST_TIME;
use super::pairs::Pairs;
use qu_base::{OBJECT_IDS, ObjectId};
use std::marker::Model;

/// The objects on which one operation makes candidates together, each with the time of its candidate there: none,
/// or two to four of them, by rising objects.
#[derive(Clone, Copy)]
pub struct Group {
    members: Pairs,
}

impl Model for Group {
    ghost use Rattle.std.specs.Prelude.{ℕ, List, IsTrue};
    ghost use Rattle.qu_base.specs.declared.party.ObjectId.{ObjectId};
    ghost use Rattle.qu_stamp.specs.Group.{is_group};

    ghost Value = { List (ObjectId × ℕ) };

    ghost view = { λ group. group.members };

    ghost invariant = { λ group. IsTrue (is_group group.members) };

    ghost inverse = { λ members. record { members = members } };
}

impl Group {
    /// The group of a candidate that stands alone.
    #[tactic(auto, unfolding(crate::specs::Group::is_group, crate::specs::Group::are_members_from))]
    pub const fn none() -> Group
        ensures { result ≡ [] }
    {
        Group {
            members: Pairs::none(),
        }
    }

    /// The group of these pairs: `None` exactly where there are not 0, 2, 3 or 4 of them, with rising objects below
    /// `OBJECT_IDS` and times from 1 to `LAST_TIME`.
    #[tactic(auto, using(crate::proofs::Groups::members_are_few))]
    pub fn new(pairs: &[(ObjectId, u64)]) -> Option<Group>
        ensures refused { IsNone result ↔ is_group pairs.now ≡ false }
        ensures value { IfSome result (λ group. group ≡ pairs.now) }
    {
        if !is_group(pairs) {
            return None;
        }
        let mut members = Pairs::none();
        for pair in pairs {
            members.push(*pair);
        }
        Some(Group { members })
    }

    /// The group of these members.
    pub(crate) fn of(members: Pairs) -> Group
        requires { IsTrue (is_group members) }
        ensures { result ≡ members }
    {
        Group { members }
    }

    /// Its objects, each with its time, by rising objects.
    pub fn pairs(&self) -> &[(ObjectId, u64)]
        ensures value { result.now ≡ self.now }
        ensures whole { IsTrue (is_group result.now) }
    {
        self.members.as_slice()
    }

    /// The time that it lists for an object.
    #[tactic(auto, unfolding(crate::specs::Group::listed_time))]
    pub(crate) fn time(&self, object: ObjectId) -> Option<u64>
        ensures { result ≡ listed_time object self.now }
    {
        match self.pairs().iter().find(|member| member.0 == object) {
            Some(member) => Some(member.1),
            None => None,
        }
    }

    /// Whether it is below another one: by the first members that differ, and else by their number.
    pub(crate) fn is_below(&self, other: &Group) -> bool
        ensures { result ≡ is_group_below self.now other.now }
    {
        self.pairs().cmp(other.pairs()).is_lt()
    }
}

impl PartialEq for Group {
    ghost use Rattle.std.specs.Prelude.{ℕ};
    ghost use Rattle.std.specs.Cmp.{partial_equiv_from_equiv, and_equiv, on_equiv, nat_eq_equiv};
    ghost use Rattle.std.specs.Cmp.Lexicographic.{lists_equiv};
    ghost use Rattle.qu_base.specs.declared.party.ObjectId.{ObjectId};
    ghost use Rattle.qu_stamp.specs.Group.{same_group};

    ghost eq = { λ group other. same_group group other };

    ghost laws = { partial_equiv_from_equiv (lists_equiv (and_equiv
        (on_equiv (λ (member : ObjectId × ℕ). (member.0).0) nat_eq_equiv)
        (on_equiv (λ (member : ObjectId × ℕ). member.1) nat_eq_equiv))) };

    fn eq(&self, other: &Group) -> bool {
        self.pairs() == other.pairs()
    }
}

impl Eq for Group {
    ghost use Rattle.std.specs.Prelude.{ℕ};
    ghost use Rattle.std.specs.Cmp.{and_equiv, on_equiv, nat_eq_equiv};
    ghost use Rattle.std.specs.Cmp.Lexicographic.{lists_equiv};
    ghost use Rattle.qu_base.specs.declared.party.ObjectId.{ObjectId};

    ghost laws = { lists_equiv (and_equiv
        (on_equiv (λ (member : ObjectId × ℕ). (member.0).0) nat_eq_equiv)
        (on_equiv (λ (member : ObjectId × ℕ). member.1) nat_eq_equiv)) };
}

/// Whether these are the members of a group.
#[tactic(auto, unfolding(crate::specs::Group::is_group))]
fn is_group(pairs: &[(ObjectId, u64)]) -> bool
    ensures { result ≡ is_group pairs.now }
{
    is_group_size(pairs.len()) && are_members(pairs)
}

/// A candidate stands alone, or with one to three others.
pub(crate) fn is_group_size(count: usize) -> bool
    ensures { result ≡ is_group_size count }
{
    count == 0 || count == 2 || count == 3 || count == 4
}

/// Whether these are objects that rise, each with a time.
#[tactic(auto, unfolding(crate::specs::Group::are_members_from))]
fn are_members(pairs: &[(ObjectId, u64)]) -> bool
    ensures { result ≡ are_members_from 0 pairs.now }
{
    let mut least = 0;
    for member in pairs {
        if !is_member(least, member) {
            return false;
        }
        least = member.0.0 + 1;
    }
    true
}

/// Whether this is an object from this number on, with a time.
fn is_member(least: u16, member: &(ObjectId, u64)) -> bool
    ensures { result ≡ is_member_from least member.now }
{
    least <= member.0.0 && member.0.0 < OBJECT_IDS && 1 <= member.1 && member.1 <= LAST_TIME
}
