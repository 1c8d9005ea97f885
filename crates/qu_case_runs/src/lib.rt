//! Stored cases: runs, by a script or event by event, and the answers of those cases that tell letters and events, or
//! points and premises.
//!
//! No part of the product, and nothing is promised of it: the answers are compared with the stored ones.
#![tactic(auto)]

mod answers;
mod audits;
mod events;
mod letters;
mod order_answers;
mod points;
mod reports;
mod scripts;

pub use answers::answer_run;
pub use events::{make_lines, setup_and_lines, world_with};
pub use order_answers::answer_order;
pub use scripts::{run_text, script_of, start};
