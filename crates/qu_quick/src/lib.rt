//! Why an act whose client's cached histories are current is answered in one round trip. The crate has no code.
#![tactic(auto)]
