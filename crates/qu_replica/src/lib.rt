//! A replica: it answers requests from its histories and versions, and accepts candidates.
#![tactic(auto)]

mod planned;
mod replica;
mod seals;
mod versions;

pub use planned::{Gain, Planned};
pub use replica::Replica;
pub use seals::Seal;
