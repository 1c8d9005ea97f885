//! What a run on threads is, and why what its actors kept is one.
#![tactic(auto)]

mod correct;
mod held;
mod ticks;
mod torn;
mod waits;

pub use correct::{correct_clients, correct_replicas};
pub use held::{moved_client, moved_replica, put_clients, put_replicas};
pub use ticks::late_letter;
pub use torn::{LiveFail, Torn};
pub use waits::waits_are_these;
