//! Stamps, which order the candidates of an object, the candidates that they name, and the groups of these.
#![tactic(auto)]

mod candidate;
mod formats;
mod group;
mod limits;
mod pairs;
mod reading;
mod reading_candidate;
mod stamp;
mod writing;

pub use candidate::Candidate;
pub use formats::formats_are_codes;
pub use group::Group;
pub use limits::{LAST_TIME, limits_are_these};
pub use reading::{read_next_stamp, read_plain_stamp, read_stamp};
pub use reading_candidate::{Basis, object_from, read_basis, read_candidate};
pub use stamp::Stamp;
pub use writing::{write_candidate, write_stamp};
