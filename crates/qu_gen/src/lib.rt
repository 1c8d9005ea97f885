//! The generator of scripts: of each number the script with which a program can be tried and measured.
#![tactic(auto)]

mod operation;
mod script;

pub use script::{gen_script, lines_are_counted};
