//! Runs whose replicas and clients take their steps on threads, and what these left behind, gathered into one run.
#![tactic(auto)]

mod actors;
mod ending;
mod live;
mod rounds;
mod turns;

pub use ending::gather;
pub use live::run_live;
pub use qu_stepping::{Gate, OpenGate};
