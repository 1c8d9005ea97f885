use qu_base::ObjectId;
use qu_stamp::Candidate;

/// A candidate of an object that some replica accepted.
#[derive(Clone, Copy)]
pub struct Tracked {
    pub object: ObjectId,
    pub candidate: Candidate,
    /// The event after which it was first decided; None where it is not.
    pub decided: Option<u64>,
}
