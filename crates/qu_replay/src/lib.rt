//! What the actors of a run kept of it, each by itself, and why the merge of their steps is a run.
#![tactic(auto)]

mod entries;
mod kept_step;
mod law;
mod tickets;

pub use entries::{EntriesFail, entries_of, first_unsent};
pub use kept_step::KeptStep;
pub use law::{kept_is_balanced, kept_is_run, told_is_run};
pub use tickets::may_follow;
