//! What a replica answers: verdicts, the refusals among them with their numbers, and the bytes of both.
#![tactic(auto)]

mod formats;
mod reading_verdict;
mod refusal_number;
mod verdict;
mod writing_verdict;

pub use formats::formats_are_codes;
pub use reading_verdict::read_verdict;
pub use refusal_number::refusal_numbers_are_these;
pub use verdict::{ClassCode, Refusal, Verdict};
pub use writing_verdict::write_verdict;
