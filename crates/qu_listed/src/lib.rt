//! What is told of a run in lines: the definitions, apart from the code that writes them.
#![tactic(auto)]

mod last_word;
mod stood;

pub use last_word::LastWord;
pub use stood::{Round, Stood, Why};
