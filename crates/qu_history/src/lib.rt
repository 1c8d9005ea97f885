//! Histories of objects at replicas, sealed or not, and the sets of them that a request carries.
#![tactic(auto)]

mod culling;
mod digested;
mod entries;
mod formats;
mod history;
mod limits;
mod reading;
mod reading_entries;
mod reading_sets;
mod sealed;
mod sealing;
mod sets;
mod text;
mod trimming;
mod writing;
mod writing_sets;

pub use culling::Culled;
pub use digested::DigestedSets;
pub use formats::formats_are_codes;
pub use history::{AddFail, History};
pub use limits::{HISTORY_LIMIT, OBJECTS_LIMIT, limits_are_these};
pub use reading_sets::{read_sets, read_shown};
pub use sealed::Sealed;
pub use sets::{SetOf, Sets};
pub use trimming::greater_found;
pub use writing_sets::{write_sets, write_shown};
