use crate::backoff::Backoff;
use crate::work::Work;
use qu_base::{ClientId, List};
use qu_question::Kept;
use qu_seal::KeyRing;

/// What a client holds: the sealed histories that it was sent, and the operation under way.
pub struct ClientState {
    pub me: ClientId,
    pub keys: KeyRing,
    /// From which its rests are drawn.
    pub waits: Backoff,
    /// Of each object and replica the newest history that it was sent.
    pub kept: List<Kept>,
    /// Number and round of the last request.
    pub last_request: Option<(u64, u8)>,
    pub work: Option<Work>,
}

/// By hand, so that a value is let go in one step wherever that is.
impl Drop for ClientState {
    fn drop(self) {
        let ClientState {
            me: _,
            keys: _,
            waits: _,
            kept: _,
            last_request: _,
            work: _,
        } = self;
    }
}
