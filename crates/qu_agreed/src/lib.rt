//! What correct replicas store under one stamp is one version, and a stamp names the histories upon which its candidate
//! was made. The crate has no code.
#![tactic(auto)]
