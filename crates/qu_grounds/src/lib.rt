//! What a request makes a replica accept, and why. The crate has no code: its lemmas are for the crates that prove
//! something of runs.
#![tactic(auto)]
