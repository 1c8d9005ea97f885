//! Tests of the lowest crates and of the generator over their public calls, of what no clause says. A file is named for
//! what it tests.
#![tactic(auto)]

#[cfg(test)]
mod base;
#[cfg(test)]
mod generator;
#[cfg(test)]
mod io;
#[cfg(test)]
mod seal;
#[cfg(test)]
mod stamp;
