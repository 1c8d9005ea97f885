//! Tests of the crates of objects, histories and frames, and of clients and replicas, over their public calls, of what
//! no clause and no stored case says. A file is named for what it tests.
#![tactic(auto)]

#[cfg(test)]
mod adversary;
#[cfg(test)]
mod backoff;
#[cfg(test)]
mod class;
#[cfg(test)]
mod client;
#[cfg(test)]
mod fetching;
#[cfg(test)]
mod frames;
#[cfg(test)]
mod history;
#[cfg(test)]
mod kept;
#[cfg(test)]
mod machine;
#[cfg(test)]
mod made;
#[cfg(test)]
mod members;
#[cfg(test)]
mod needed;
#[cfg(test)]
mod needing;
#[cfg(test)]
mod replica;
#[cfg(test)]
mod rows;
#[cfg(test)]
mod tally;
#[cfg(test)]
mod versions;
