//! Which requests replicas handle, and what they learn and accept at the events of a run. The crate has no code: its
//! lemmas are for the crates that prove something of runs.
#![tactic(auto)]
