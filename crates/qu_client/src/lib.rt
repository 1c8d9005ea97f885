//! A client: it asks replicas to perform its operations, first a preferred quorum of them, has mended what hinders
//! them, counts their verdicts, and takes a quorum's answer; and how long it rests before it asks again.
#![tactic(auto)]

mod backoff;
mod client;
mod endings;
mod leaving;
mod letters;
mod limits;
mod needed;
mod picking;
mod planned;
mod refusal_number;
mod rounds;
mod state;
mod steps;
mod ticks;
mod verdicts;
mod whom;
mod work;

pub use backoff::Backoff;
pub use client::{Client, InvokeFail};
pub use limits::{LONGEST_WAIT, MOST_DOUBLINGS, limits_are_these};
pub use needed::named_after;
pub use picking::preferred;
pub use planned::{Moved, Planned, Turn};
pub use refusal_number::{BUSY, refusal_numbers_are_these};
pub use state::ClientState;
pub use verdicts::{fitting, is_agreed, is_hopeless};
pub use whom::{Whom, first_object};
pub use work::{Counted, Phase, Work};
