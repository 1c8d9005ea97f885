use qu_base::{ClientId, List, Party};
use qu_frames::{Input, Letter};
use qu_objects::Outcome;

/// A step that an actor made, as it is filed.
#[derive(Drop)]
pub struct Filed {
    pub ticket: u64,
    pub actor: Party,
    pub input: Input,
    pub letters: List<Letter>,
    /// The operation that ended: its client, its number, and how.
    pub ended: Option<(ClientId, u64, Outcome)>,
}
