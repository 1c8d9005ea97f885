//! The steps of the journal beside those that actors kept: whether they are the same, and what is told where not.
#![tactic(auto)]

mod alike;
mod journal;

pub use journal::{first_unlike, steps_filed, unlike_pair, unsent_pair};
