//! What a client asks in a round of an operation: the objects that are named in it, the histories that the client
//! keeps, the sets that it shows of them, and whether it asks the operation or has an object mended.
#![tactic(auto)]

mod kept;
mod named;
mod needed;
mod question;
mod sets;

pub use kept::{Kept, Mark, copies, keep_all, marked_shown, unmarked};
pub use named::Named;
pub use question::{Question, question_of};
