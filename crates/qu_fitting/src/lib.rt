//! What a replica holds once it accepts candidates, and that what it holds, decides and sends fits the formats of
//! bytes. The crate has no code: its definitions and lemmas are for the replica, and for the crates that prove
//! something of runs.
#![tactic(auto)]
