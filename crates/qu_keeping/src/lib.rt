//! What actors keep: one step more of a replica or a client, behind those before it, and the steps of all by ticket.
#![tactic(auto)]

mod client;
mod merge;
mod replica;

pub use client::client_takes;
pub use merge::by_ticket;
pub use replica::replica_takes;
