//! Which candidates the replicas of a run accepted, and after which event each was decided, by what their replies show;
//! and the first mark of an update: the event after which a candidate of it was first decided.
#![tactic(auto)]

mod findings;
mod marks;
mod tracker;

pub use findings::{Findings, find};
pub use marks::first_mark;
pub use tracker::Tracker;
