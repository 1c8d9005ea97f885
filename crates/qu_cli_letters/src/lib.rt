//! The command line of `qu-letters`: its words, and what it tells of the letters of a run.
#![tactic(auto)]

mod letters;
mod teller;

pub use letters::qu_letters;
