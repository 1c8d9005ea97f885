ghost use Rattle.std.specs.Prelude.{◌≡◌};
ghost use Rattle.qu_kept.specs.Remedy.{wanted_by};

use qu_base::ObjectId;
use qu_stamp::{Candidate, Stamp};

/// What is added to the history of an object to mend it.
#[derive(Clone, Copy, PartialEq, Eq)]
pub enum Remedy {
    /// Nothing: the object is sound.
    Nothing,
    /// A candidate that the sets show, as it is.
    Shown(Candidate),
    /// A barrier or a copy above all that the sets show, which rests upon this stamp.
    Fresh { barrier: bool, prior: Stamp },
    /// Nothing yet: what would be added has a member on this object, which the sets have to show.
    Unshown(ObjectId),
    /// Nothing yet: what would be copied has a member on this object, which can neither be copied with it nor is known
    /// to be decided.
    Unplanned(ObjectId),
    /// Nothing yet: this object has gone on together with the target, of which the sets have to show more.
    Outdated(ObjectId),
}

impl Remedy {
    /// The stamp of the version that what is added has: that of the candidate that is shown, or of the one that is
    /// copied. A barrier has none.
    #[tactic(auto, unfolding(crate::specs::Remedy::wanted_by))]
    pub fn wanted(&self) -> Option<Stamp>
        ensures { result ≡ wanted_by self.now }
    {
        match self {
            Remedy::Shown(candidate) if !candidate.stamp.barrier => Some(candidate.stamp),
            Remedy::Fresh {
                barrier: false,
                prior,
            } => Some(*prior),
            _ => None,
        }
    }
}
