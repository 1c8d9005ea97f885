//! The record of a run: its setup, its events with the letters and the ends that they made, and the
//! operations and frames that it shows.
#![tactic(auto)]

mod decoded;
mod earliest;
mod event;
mod operation;
mod premises;
mod sent;
mod trace;

pub use decoded::DecodedTrace;
pub use earliest::earlier;
pub use event::Event;
pub use operation::begun;
pub use premises::Premises;
pub use sent::{Sent, Starts};
pub use trace::{Entry, Setup, Trace};
