//! The laws that every run meets, by which what is established is a chain: what replicas accept rests on what a quorum
//! accepted before. The crate has no code.
#![tactic(auto)]
