/// What an audit of a run tells of the premises of its order. Events are numbered from 1.
#[derive(Clone, Copy, PartialEq, Eq)]
pub enum Premises {
    /// Nothing is forged, and no two texts have one digest.
    Hold,
    /// This event is the first at which a correct party is handed an HMAC of another one that did not make it.
    Forged { event: u64 },
    /// The second event is the first that digests a text with the digest of another text, which the first event
    /// digested, and no earlier one.
    Collide { first: u64, second: u64 },
}
