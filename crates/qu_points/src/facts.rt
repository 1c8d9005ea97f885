ghost use Rattle.std.specs.Prelude.{IfOk};
ghost use Rattle.qu_world.specs.Run.{IsRun};
ghost use Rattle.qu_points.specs.Facts.{AreFacts};

use super::acts::handled_acts;
use qu_base::{ClientId, List, NoMemory};
use qu_known::Answered;
use qu_marks::{Findings, Tracker, find};
use qu_objects::Act;
use qu_trace::DecodedTrace;
use std::alloc::Global;

/// What has to be known of a run to find the points of its operations.
#[derive(Drop)]
pub struct Facts {
    /// The candidates that replicas accepted, with the events after which they were decided.
    pub tracker: Tracker,
    /// The acts that replicas handled.
    pub acts: List<(ClientId, u64, Act)>,
    /// For each event the rounds that it answers.
    pub answers: List<List<Answered>>,
}

impl Facts {
    /// The facts of a run.
    pub fn of(alloc: Global, trace: &DecodedTrace<'_>) -> Result<Facts, NoMemory>
        requires { IsRun trace.now }
        ensures { IfOk result (λ facts. AreFacts trace.now facts) }
    {
        let Findings { tracker, answers } = find(alloc, trace)?;
        Ok(Facts {
            tracker,
            acts: handled_acts(alloc, trace)?,
            answers,
        })
    }
}
