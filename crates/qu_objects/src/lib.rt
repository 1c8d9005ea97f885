//! What is done to objects and asked of them, what that answers, and the bytes of all this.
#![tactic(auto)]

mod act;
mod answer;
mod digesting;
mod formats;
mod kind;
mod limits;
mod op;
mod parts;
mod query;
mod reading;
mod reading_answer;
mod reading_parts;
mod reading_state;
mod refusal_number;
mod state;
mod writing;
mod writing_answer;
mod writing_parts;
mod writing_state;

pub use act::{Act, BadParts, Method};
pub use answer::Answer;
pub use digesting::{act_digest, act_text};
pub use formats::formats_are_codes;
pub use kind::{KindName, Value};
pub use limits::{
    KEPT_LIMIT, LAST_ASK, LAST_ITEM, LAST_KIND, LAST_METHOD, LINKS_LIMIT, MOST_PARTS,
    limits_are_these,
};
pub use op::{Op, Outcome};
pub use qu_base::{Applied, Item, Kind, Told};
pub use query::{Ask, Query};
pub use reading_answer::read_answer;
pub use reading_parts::{read_act, read_query};
pub use reading_state::read_state;
pub use refusal_number::{
    BAD_NAME, EXISTS, FULL, MISSING, OVER, TOO_LONG, UNDER, WRONG_KIND, refusal_numbers_are_these,
};
pub use state::{KeptRow, Link, ObjState};
pub use writing_answer::write_answer;
pub use writing_parts::{write_act, write_query};
pub use writing_state::write_state;
