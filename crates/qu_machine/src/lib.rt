//! The machine of whole operations, against which all answers of the service are judged.
//!
//! It knows no replicas, clients or letters: an act or a query is run as one step on plain values.
#![tactic(auto)]

mod alike;
mod fault;
mod judgeable;
mod judging;
mod machine;
mod record;
mod standing;

pub use fault::JudgeFault;
pub use judgeable::is_judgeable;
pub use judging::judge;
pub use machine::Machine;
pub use record::{OpRecord, Point};
