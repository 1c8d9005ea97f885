//! The versions of objects that a replica holds, each under its stamp.
#![tactic(auto)]

mod limits;
mod prepared;
mod store;
mod stored;

pub use limits::{MOST_VERSIONS, limits_are_these};
pub use prepared::Prepared;
pub use store::VersionStore;
pub use stored::Stored;
