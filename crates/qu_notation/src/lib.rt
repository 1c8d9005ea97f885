//! Words of lines: numbers, bytes and names, how scripts write them and how reports do; and the words of the programs,
//! with what each list of them asks for.
#![tactic(auto)]

mod bytes;
mod command;
mod command_number;
mod cut;
mod letters;
mod names;
mod number;
mod reading_names;
mod service;

pub use bytes::{put_bytes_text, read_bytes};
pub use command::{Command, Telling};
pub use cut::{cut_line, split_at_spaces};
pub use letters::{LETTERS_USAGE, letters_command};
pub use names::{put_entries_text, put_name_text};
pub use number::read_number;
pub use reading_names::read_name;
pub use service::{USAGE, alone_command, asks_live};
