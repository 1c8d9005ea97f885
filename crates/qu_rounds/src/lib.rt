//! The rounds of clients: each request belongs to an operation that began before, one round asks one thing,
//! and an operation completes by the answers of a quorum. The crate has no code.
#![tactic(auto)]
