//! What the replies of a run show of the histories of its replicas, which is all that replicas accepted.
#![tactic(auto)]

mod answers;
mod entries;
mod known;
mod tracked;

pub use answers::{Answered, answered_by};
pub use entries::{are_of_bytes, see_entry};
pub use known::{Known, Learnt};
pub use tracked::Tracked;
