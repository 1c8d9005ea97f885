//! What a faulty party can make under the keys that it has: a replica histories, replies and versions of its choice, a
//! client requests.
#![tactic(auto)]

mod fetched;
mod naming;
mod replying;
mod requesting;
mod sealing;

pub use fetched::fetched_of;
pub use naming::in_name_of;
pub use replying::reply_of;
pub use requesting::request_of;
pub use sealing::sealed_for;
