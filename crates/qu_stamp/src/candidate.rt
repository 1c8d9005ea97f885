ghost use Rattle.std.specs.Prelude.{◌≡◌};

use super::{Group, Stamp};
use qu_base::ObjectId;

/// A version of an object that a replica may accept: its own stamp, the stamp of the version upon which it rests,
/// and the objects on which it is accepted together with others.
#[derive(Clone, Copy, PartialEq, Eq)]
pub struct Candidate {
    pub stamp: Stamp,
    pub prior: Stamp,
    pub group: Group,
}

impl Candidate {
    ghost use Rattle.qu_stamp.specs.Candidate.{opening, is_based_below, is_before, member};

    /// The candidate with which each object begins. It rests upon itself.
    pub const fn opening() -> Candidate
        ensures { result ≡ opening }
    {
        Candidate {
            stamp: Stamp::opening(),
            prior: Stamp::opening(),
            group: Group::none(),
        }
    }

    /// Whether this candidate is below the other one.
    #[tactic(auto, unfolding(crate::specs::Stamp::same_stamp))]
    pub fn is_before(&self, other: &Candidate) -> bool
        ensures { result ≡ is_before self.now other.now }
    {
        self.stamp.is_below(&other.stamp) || self.stamp == other.stamp && self.is_based_below(other)
    }

    /// Whether the other one is greater by prior and group, where both have one stamp.
    #[tactic(auto, unfolding(crate::specs::Stamp::same_stamp))]
    fn is_based_below(&self, other: &Candidate) -> bool
        ensures { result ≡ is_based_below self.now other.now }
    {
        self.prior.is_below(&other.prior)
            || self.prior == other.prior && self.group.is_below(&other.group)
    }

    /// The stamp of its group on an object: its own with the time that the group lists there; `None` exactly where
    /// the group does not list the object.
    #[tactic(auto, unfolding(crate::specs::Candidate::member))]
    pub fn member(&self, object: ObjectId) -> Option<Stamp>
        ensures { result ≡ member self.now object }
    {
        let time = self.group.time(object)?;
        Some(Stamp { time, ..self.stamp })
    }
}
