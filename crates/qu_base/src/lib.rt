//! What every other crate stands on: who takes part, how many replicas answer, lists, bytes, and kinds of objects.
#![tactic(auto)]

mod bad_text;
mod bounds;
mod cursor;
mod kind;
mod limits;
mod list;
mod no_memory;
mod outbytes;
mod party;
mod refusal_number;
mod shared;
mod texts;

pub use bad_text::{BadText, ReadFail, Why};
pub use bounds::{BadBounds, Bounds, is_replica_count};
pub use cursor::Cursor;
pub use kind::{Applied, Item, Kind, Told};
pub use limits::{
    CONTENT_LIMIT, ENTRIES_LIMIT, LAST_CLIENT, MOST_FAULTS, NAME_LIMIT, OBJECT_IDS, REPLICA_IDS,
    limits_are_these,
};
pub use list::List;
pub use no_memory::NoMemory;
pub use outbytes::Outbytes;
pub use party::{ClientId, Digest, ObjectId, Party, ReplicaId};
pub use refusal_number::refusal_numbers_are_these;
pub use shared::Shared;
pub use texts::{is_name_before, put_content, put_entries, put_name};
