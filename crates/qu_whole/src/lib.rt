//! Whether what a run on threads left behind is whole: its clients have ended, its steps are the filed ones, and no
//! client ticked too early.
#![tactic(auto)]

mod ended;
mod telling;

pub use ended::have_ended;
pub use telling::{tell, tick_in_time};
