//! Whether the premises hold of a run, and else the first event that breaks one: what is forged at an event, what
//! letters showed before it, and which texts are digested at it, of which no two may have one digest.
#![tactic(auto)]

mod auditing;
mod digests;
mod forging;
mod reading;
mod shown;
mod text;
mod texts;

pub use auditing::audit;
pub use digests::{Digests, Seen};
pub use forging::{is_forged, ring_of};
pub use qu_trace::Premises;
pub use shown::{Shown, ShownSoFar};
pub use text::Text;
pub use texts::texts_at;
