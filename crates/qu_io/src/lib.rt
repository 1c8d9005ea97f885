//! Where bytes come from and where they go: in memory, for tests and theorems, and by std; how a script is taken from a
//! source, and how a text is put into a sink.
//!
//! A call moves a piece of any size, and may fail. Both traits say what is known after each call:
//! `ReadsFrom` and `WritesTo` in specs/. For a loop of calls there are `HasRead` and `HasWritten` beside
//! them, and the rule sets `read_loop` and `write_loop` in proofs/Chains.antt.
#![tactic(auto)]

mod failed;
mod limits;
mod mem_sink;
mod mem_source;
mod plan;
mod reading;
mod sink;
mod source;
mod std_sink;
mod std_source;
mod sure_sink;
mod sure_source;
mod writing;

pub use failed::Failed;
pub use limits::{PIECE, SCRIPT_LIMIT, limits_are_these};
pub use mem_sink::MemSink;
pub use mem_source::MemSource;
pub use reading::{NoScript, take_script};
pub use sink::Sink;
pub use source::Source;
pub use std_sink::StdSink;
pub use std_source::StdSource;
pub use sure_sink::SureSink;
pub use sure_source::SureSource;
pub use writing::{tell_text, write_text};
