//! Where actors find their letters: a journal of the steps that were filed, the bags of letters that wait, and counts
//! of steps under way and of tickets given.
#![tactic(auto)]

mod actors;
mod bags;
mod filed;
mod letters;
mod post;
mod post_state;

pub use filed::Filed;
pub use letters::{NAMED_LETTERS, limits_are_these};
pub use post::Post;
pub use post_state::PostState;
