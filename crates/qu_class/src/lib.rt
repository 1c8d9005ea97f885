//! The class of an object by the histories that replicas showed of it.
#![tactic(auto)]

mod class;
mod members;
mod repairable;

pub use class::{Class, classify, method_at};
pub use members::{is_companion, member_stamp};
pub use repairable::{is_shown_of_kind, object_base};
