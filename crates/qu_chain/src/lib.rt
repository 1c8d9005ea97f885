//! The chain of the candidates that took hold: whatever replicas accept rests, prior by prior, on
//! what was established before. The crate has no code. Its definitions say what is asked of a run,
//! and its lemmas are for the crates that prove something of runs.
#![tactic(auto)]
