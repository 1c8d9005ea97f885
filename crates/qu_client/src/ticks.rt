ghost use Rattle.std.specs.Prelude.{◌≡◌, IfOk, Some};
ghost use Rattle.qu_client.specs.Steps.{rest_ticked, ticked_in};
ghost use Rattle.qu_client.specs.Plans.{planned_step};

use super::endings::{ends_round, next_round};
use super::rounds::asks_others;
use super::{ClientState, Planned, Turn};
use crate::work::{Phase, Work};
use qu_base::NoMemory;
use qu_question::copies;
use std::alloc::Global;

/// A tick: a rest grows shorter; where the preferred replicas were asked, the others are asked too; where all were, the
/// round ends.
pub fn ticked_in(alloc: Global, state: &ClientState, work: &Work) -> Result<Planned, NoMemory>
    requires { state.now.work ≡ Some work.now }
    ensures { IfOk result (λ planned. planned_step state.now planned
        ≡ ticked_in state.now work.now work.now.phase) }
{
    match work.phase {
        Phase::Resting { ticks } => rest_ticked(alloc, state, work, ticks),
        Phase::Asking { all: false } => asks_others(alloc, state, work),
        Phase::Asking { all: true } => ends_round(
            alloc,
            state,
            state.kept.as_slice(),
            work,
            work.replies.as_slice(),
        ),
    }
}

/// A tick of a rest. After the last one the next round begins.
#[tactic(auto, using(crate::proofs::Planning::passed))]
fn rest_ticked(
    alloc: Global,
    state: &ClientState,
    work: &Work,
    ticks: u32,
) -> Result<Planned, NoMemory>
    requires { state.now.work ≡ Some work.now }
    ensures { IfOk result (λ planned. planned_step state.now planned ≡ rest_ticked state.now work.now ticks) }
{
    if ticks <= 1 {
        let kept = copies(alloc, state.kept.as_slice())?;
        let named = work.named.copy(alloc)?;
        return next_round(alloc, state, kept, named, work);
    }
    let phase = Phase::Resting { ticks: ticks - 1 };
    Ok(Planned::turned(alloc, Turn::Passes(phase)))
}
