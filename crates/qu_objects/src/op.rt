ghost use Rattle.std.specs.Prelude.{◌≡◌, IfOk};

use super::{Act, Answer, Query};
use qu_base::NoMemory;
use std::alloc::Global;

/// An operation of a client.
pub enum Op {
    Act(Act),
    Query(Query),
}

/// By hand, so that a value is let go in one step wherever that is.
impl Drop for Op {
    fn drop(self) {
        match self {
            Op::Act(_) | Op::Query(_) => {}
        }
    }
}

impl Op {
    /// An equal operation.
    pub fn copy(&self, alloc: Global) -> Result<Op, NoMemory>
        ensures { IfOk result (λ op. op ≡ self.now) }
    {
        Ok(match self {
            Op::Act(act) => Op::Act(act.copy(alloc)?),
            Op::Query(query) => Op::Query(query.copy(alloc)?),
        })
    }
}

/// How an operation ends.
pub enum Outcome {
    Done(Answer),
    /// All its rounds are spent.
    GaveUp,
}

/// By hand, so that a value is let go in one step wherever that is.
impl Drop for Outcome {
    fn drop(self) {
        match self {
            Outcome::Done(_) | Outcome::GaveUp => {}
        }
    }
}

impl Outcome {
    /// An equal outcome.
    pub fn copy(&self, alloc: Global) -> Result<Outcome, NoMemory>
        ensures { IfOk result (λ outcome. outcome ≡ self.now) }
    {
        Ok(match self {
            Outcome::Done(answer) => Outcome::Done(answer.copy(alloc)?),
            Outcome::GaveUp => Outcome::GaveUp,
        })
    }
}
