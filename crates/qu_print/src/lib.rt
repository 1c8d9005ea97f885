//! What is told of a run: operations and answers in words, what happened, which operations are open, how many ended,
//! and the counters behind the points; and the report of a run, or one line that sums it up.
#![tactic(auto)]

mod ends;
mod open;
mod piece;
mod report;
mod sum;
mod summary;
mod timeline;
mod told;
mod words;

pub use ends::{put_counts, put_end_line, put_premises};
pub use piece::Piece;
pub use report::report_text;
pub use sum::counters_sum;
pub use summary::summary_text;
pub use timeline::{put_point, put_timeline};
pub use told::told_order;
pub use words::{put_answer, put_op, put_value};
