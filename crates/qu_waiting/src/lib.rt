//! What a replica does to get versions that it lacks: the requests that wait, each in the slot of its client; the
//! fetches that run; and the answers of other replicas, of which some may lie, each counted once: a version is found
//! where enough of them gave the same answer.
#![tactic(auto)]

mod counting;
mod fetches;
mod fetching;
mod next;
mod refusal_number;
mod running;
mod same;
mod slots;
mod tally;
mod vote;
mod waiting;

pub use counting::Counting;
pub use fetches::{fetch_under, with_fetches, with_votes, without_fetch};
pub use fetching::{Fetch, Fetching};
pub use next::{Next, Turn};
pub use refusal_number::{TWICE, refusal_numbers_are_these};
pub use running::Running;
pub use same::same_bytes_are_equal;
pub use slots::{empty_slots, first_waiting, turn_slot};
pub use tally::{Tally, VoteFail};
pub use vote::Vote;
pub use waiting::Waiting;
