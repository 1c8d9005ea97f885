//! Digests, SHA-256 of a text under a tag that says what kind of text it is, and HMACs under the keys of
//! pairs of parties.
#![tactic(auto)]

mod authenticating;
mod constants;
mod digesting;
mod keys;

pub use authenticating::hmac;
pub use constants::{
    ACT_TAG, BLOCK, FRAME_TAG, HISTORY_TAG, IPAD, OPAD, SETS_TAG, constants_are_these,
};
pub use digesting::digest;
pub use keys::{KeyRing, RingName};
