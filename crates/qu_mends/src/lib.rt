//! What a replica makes of a request to mend an object: what its sets show, what mends the object by its class, and the
//! table of such requests, over all objects that are mended together.
#![tactic(auto)]

mod accepted;
mod course;
mod mend;
mod mending;
mod part;
mod seen;
mod table;

pub use accepted::Accepted;
pub use mend::Mend;
pub use mending::Mending;
pub use part::Part;
pub use seen::Seen;
pub use table::has_no_room;
