//! Stored cases: how they and their bytes are read, how what is read is told, and the answers of the cases of bytes
//! and of generated scripts, which need no run.
//!
//! No part of the product, and nothing is promised of it: the answers are compared with the stored ones.
#![tactic(auto)]

mod answers;
mod case;
mod changes;
mod difference;
mod forms;
mod generated;
mod names;
mod no_answer;
mod parts;
mod reading;
mod seals;
mod texts;
mod told;

pub use answers::answer_bytes;
pub use case::{Case, party};
pub use difference::put_difference;
pub use forms::{put_frame, put_hashed, put_outcome, put_party};
pub use generated::answer_generated;
pub use names::{Named, bytes_of, read_names};
pub use no_answer::NoAnswer;
pub use reading::one_frame;
pub use seals::signed_text;
pub use texts::{parted, repeated, set_off, words_of};
pub use told::Told;
