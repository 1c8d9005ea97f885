//! What the versions of objects keep of clients and of other objects, and what acts and remedies make of them: an
//! update that comes again is told its answer and never performed twice, and what mends an object rests on a version
//! that is there.
#![tactic(auto)]

mod adding;
mod copying;
mod course;
mod links;
mod remedy;
mod repeats;
mod rows;
mod values;
mod versions;

pub use adding::{added, stored};
pub use copying::copied;
pub use course::{Course, group_of};
pub use links::links_after;
pub use remedy::Remedy;
pub use repeats::{Standing, standing_of};
pub use rows::{row_of, with_row};
pub use values::{PerformedValues, perform_on_values, tell_all};
pub use versions::{Performed, perform};
