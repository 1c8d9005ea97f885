//! What a reply tells of the replica that sent it: what it had accepted, and the versions from which it answered. The
//! crate has no code.
#![tactic(auto)]
