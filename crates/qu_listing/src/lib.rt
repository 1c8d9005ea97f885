//! The letters of a run as lines of text: by event, with the points of an order, or with their digests or bytes.
#![tactic(auto)]

mod deliveries;
mod digests;
mod events;
mod fetching;
mod following;
mod frames;
mod letters;
mod names;
mod offer;
mod points;
mod receivers;
mod rounds;
mod so_far;
mod stood;
mod told;
mod verdicts;

pub use digests::{bytes_text, digests_text};
pub use events::events_text;
