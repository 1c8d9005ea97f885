use super::Accepted;
use qu_base::{List, ObjectId};
use qu_stamp::Stamp;
use qu_verdicts::Refusal;

/// What a replica makes of a request to mend an object.
#[derive(Drop)]
pub enum Mending {
    /// It accepts these candidates, and tells the stamp of that of the target. A copy has a version; a barrier has
    /// none, and that of a candidate that was shown is stored already.
    Mends {
        stamp: Stamp,
        accepted: List<Accepted>,
    },
    /// It holds all that it would add: on the target what has this stamp.
    Holds {
        stamp: Stamp,
    },
    /// It adds nothing, and says why.
    Refuses(Refusal),
    /// These versions are missing, upon which the mend rests.
    Waits {
        missing: List<(ObjectId, Stamp)>,
    },
}
