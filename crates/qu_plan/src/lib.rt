//! The plan of a copy: what is copied together on which objects, and on what it rests: candidates of one group, and the
//! links by which versions tell of each other.
#![tactic(auto)]

mod beside;
mod choosing;
mod fact;
mod known;
mod linked;
mod plan;
mod reading;
mod refusal_number;

pub use beside::{is_copy, is_seen, reads};
pub use fact::Fact;
pub use linked::{is_above, is_at, is_passed};
pub use plan::{CopyPlan, PlanFail, plan_copy};
pub use reading::evidence;
pub use refusal_number::refusal_numbers_are_these;
