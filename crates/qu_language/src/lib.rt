//! The script language: what the lines of a script say, how each is read behind those before it, and how a text is read
//! line by line to the script or its first refusal; and what could stand where a script is refused, in words for
//! people, of which no theorem speaks.
#![tactic(auto)]

mod bringing;
mod event;
mod forms;
mod limits;
mod line;
mod operation;
mod outage;
mod parts;
mod phase;
mod place;
mod read;
mod rules;
mod running;
mod setup;
mod telling;
mod ticking;

pub use limits::{MOST_CALLS, MOST_TICKS, limits_are_these};
pub use line::{How, Line, Script};
pub use operation::{Part, Verb};
pub use parts::Parts;
pub use phase::Phase;
pub use read::read_script;
pub use running::run_hint;
pub use telling::hint;
