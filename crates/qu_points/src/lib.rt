//! The points at which operations took effect, in one order.
#![tactic(auto)]

mod acts;
mod answers;
mod before;
mod effects;
mod facts;
mod order;
mod updates;

pub use order::printed_order;
pub use updates::parts_fit;
