//! Blobs: objects that hold bytes.
#![tactic(auto)]

mod blob;

pub use blob::{Blob, BlobQuery, BlobUpdate, TOO_LONG, refusals_are_these};
