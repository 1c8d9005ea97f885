//! What is true at each moment of a run: what its letters carry, what events hand to parties, what is
//! assumed of bytes and of digests, and that all that is sent fits its format. The crate has no code: its
//! definitions are those that clauses cite, and its lemmas are for the crates that prove something of runs.
#![tactic(auto)]
