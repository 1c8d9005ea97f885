//! The frames that clients and replicas send each other, the letters that carry them, and what a whole text spells,
//! brings to a party, or says as a request.
#![tactic(auto)]

mod blank;
mod decoding;
mod formats;
mod frame;
mod input;
mod limits;
mod reading;
mod reading_frame;
mod receiving;
mod requests;
mod signing;
mod writing_frame;

pub use blank::blank_mac;
pub use decoding::decode;
pub use formats::formats_are_codes;
pub use frame::{Body, Frame, Letter};
pub use input::{Input, LetterName};
pub use limits::{CULLED_LIMIT, LAST_ROUND, TEXT_LIMIT, limits_are_these};
pub use qu_verdicts::{ClassCode, Refusal, Verdict, refusal_numbers_are_these};
pub use reading::{Reading, said_again};
pub use reading_frame::read_frame;
pub use receiving::receive;
pub use requests::read_request;
pub use signing::{before_mac, text_digest, with_mac};
pub use writing_frame::encode;
