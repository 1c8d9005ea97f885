ghost use Rattle.std.specs.Prelude.{◌≡◌, IfOk};

use crate::fetching::Fetching;
use qu_base::{NoMemory, ObjectId};
use qu_stamp::Stamp;
use std::marker::Model;

/// A version that other replicas were asked for, and what they answered.
pub struct Running {
    pub object: ObjectId,
    pub stamp: Stamp,
    pub answers: Fetching,
}

/// By hand, so that a value is let go in one step wherever that is.
impl Drop for Running {
    fn drop(self) {
        let Running {
            object: _,
            stamp: _,
            answers: _,
        } = self;
    }
}

impl Model for Running {
    ghost use Rattle.qu_waiting.specs.Waiting.{Running as Runs};

    ghost Value = { Runs };

    ghost view = { λ running. record {
      object = running.object;
      stamp = running.stamp;
      answers = running.answers;
    } };
}

impl Running {
    /// An equal fetch.
    pub fn copy(&self) -> Result<Running, NoMemory>
        ensures { IfOk result (λ running. running ≡ self.now) }
    {
        Ok(Running {
            object: self.object,
            stamp: self.stamp,
            answers: self.answers.copy()?,
        })
    }
}
