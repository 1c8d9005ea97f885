//! Directories: objects that hold names, each with a number.
#![tactic(auto)]

mod dir;
mod entries;
mod names;
mod reading;
mod refusals;

pub use dir::{Dir, DirQuery, DirUpdate};
pub use names::is_good_name;
pub use reading::is_above_last;
pub use refusals::{BAD_NAME, EXISTS, FULL, MISSING, refusals_are_these};
