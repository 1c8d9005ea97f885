//! Tests of locks, threads, runs, their scripts and their texts, and of the calls that programs make, over their public
//! calls, of what no clause and no stored case says. A file is named for what it tests.
#![tactic(auto)]

#[cfg(test)]
mod cli;
#[cfg(test)]
mod hints;
#[cfg(test)]
mod listing;
#[cfg(test)]
mod live;
#[cfg(test)]
mod lock;
#[cfg(test)]
mod print;
#[cfg(test)]
mod quick;
#[cfg(test)]
mod threads;
