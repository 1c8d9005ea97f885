//! A network of correct replicas and clients, in which each event is scripted: which letter is
//! delivered, which client begins an operation.
#![tactic(auto)]

mod fail;
mod letters;
mod opening;
mod parties;
mod recording;
mod refusal_number;
mod refusals;
mod world;

pub use fail::{BYTE_LIMIT, EVENT_LIMIT, WorldFail, limits_are_these};
pub use opening::start_replicas;
pub use parties::Made;
pub use refusal_number::refusal_numbers_are_these;
pub use world::World;
