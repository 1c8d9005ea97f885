//! Runs of scripts: what their lines do in a world, and which letter a flow delivers next, where replicas are held and
//! letters were lost.
#![tactic(auto)]

mod fake;
mod letters;
mod outage;
mod player;
mod read;
mod run;
mod waiting;

pub use outage::Outage;
pub use qu_language::{How, Line, MOST_TICKS, Script};
pub use qu_script_words::{Bad, BadKind, ScriptFail};
pub use read::{read_live_script, read_script};
pub use run::{Played, play_until_refused, run_script};
pub use waiting::{Begin, find_waiting, next_letter};
