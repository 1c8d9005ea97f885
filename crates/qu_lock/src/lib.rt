//! Replicas and clients behind locks: what stands there is the replay of the steps that were kept.
#![tactic(auto)]

mod actor;
mod kept;
mod lock;
mod run_name;

pub use actor::Actor;
pub use kept::Kept;
pub use lock::{ClientLock, ReplicaLock};
pub use run_name::RunName;
