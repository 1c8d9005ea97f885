//! One step of a replica or a client behind its lock: what it takes, the ticket that it draws, and where it is filed.
#![tactic(auto)]

mod gate;
mod stepping;

pub use gate::{Gate, OpenGate};
pub use stepping::{step_client, step_replica};
