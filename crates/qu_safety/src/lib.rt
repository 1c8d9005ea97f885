//! Why the printed order of a run is right: the machine that runs whole operations in this order gives each its answer.
#![tactic(auto)]

mod order;
mod parts;

pub use order::order_of;
