//! The command lines of the service: their words, their input and their output.
#![tactic(auto)]

mod answering;
mod answering_live;
mod live;
mod output;
mod refusal;
mod report;
mod simulation;
mod teller;
mod telling;
mod top;

pub use answering::answer;
pub use qu_notation::{Command, Telling};
pub use report::{End, Report};
pub use teller::Teller;
pub use top::{qu, qu_alone};
