//! The stored cases of the repository: standard input names topics, a line each, and the cases of each are compared
//! with the answers that stand beside them.
//!
//! A topic is a file of `cases/`. Behind its name a line may have the name of a case, whose answer is then printed as
//! a whole. docs/testing.md has the form of the files.
#![tactic(auto)]

mod answers;
mod program;
mod topic;

use qu_case_forms::parted;
use std::rt::Files;
use std::{fs, io};
use topic::check_topic;

fn main(rt: HostRuntime) -> io::Result<()> {
    let topics = io::read_to_string(rt.alloc(), rt.stdin())?;
    let names = fs::read_to_string(&rt, "cases/names")?;
    check_all(&rt, names.as_str(), topics.as_str())
}

fn check_all(rt: &(impl Files + Print + AllocGlobal), names: &str, topics: &str) -> io::Result<()> {
    for line in topics.lines() {
        let (topic, case) = parted(line, " ");
        check_topic(rt, names, topic, case)?;
    }
    Ok(())
}
