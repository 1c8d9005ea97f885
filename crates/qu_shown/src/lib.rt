//! What letters carry and show: histories that their replicas had at an earlier moment of the run. The crate has no
//! code.
#![tactic(auto)]
