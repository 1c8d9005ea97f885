//! Counters: objects that hold a number.
#![tactic(auto)]

mod counter;

pub use counter::{Counter, CounterQuery, CounterUpdate, OVER, UNDER, refusals_are_these};
