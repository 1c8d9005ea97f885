//! What a replica makes of a request: its sets are culled, and it is decided upon what is left of them by the replica's
//! tables: the rows of an act and of a query, and those of a request to mend an object, each by itself, and their
//! order.
#![tactic(auto)]

mod asked;
mod decision;
mod handling;
mod rows;
mod tables;
mod versions;

pub use asked::Asked;
pub use decision::{Decision, refuse};
pub use handling::{Handled, handle};
pub use rows::{Rows, row_done, row_kept, row_method, row_time};
