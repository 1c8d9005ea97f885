//! The words of scripts: how a line is cut into them, what each has to be, and how a refusal is told.
#![tactic(auto)]

mod bad;
mod listed;
mod parties;
mod refusal_number;
mod rules;
mod words;

pub use bad::{Bad, BadKind, LineFail, ScriptFail};
pub use listed::{read_numbers, read_replicas};
pub use parties::{
    client_by_number, read_client, read_correct_client, read_correct_replica, read_party,
    read_replica, replica_by_number,
};
pub use refusal_number::refusal_numbers_are_these;
pub use rules::{read_content, read_hex, read_name, read_number, read_object, read_ranged};
pub use words::{Words, cut_words};
