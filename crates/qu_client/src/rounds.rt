ghost use Rattle.std.specs.Prelude.{◌≡◌, IfOk, Some};
ghost use Rattle.qu_client.specs.Rounds.{begins, begin_round, asks_others};
ghost use Rattle.qu_client.specs.Plans.{planned_step};

use super::letters::requests;
use super::{ClientState, Moved, Planned, Turn};
use crate::whom::{Whom, first_object};
use crate::work::{Phase, Work};
use qu_base::{List, NoMemory};
use qu_objects::Op;
use qu_question::{Kept, Named, marked_shown, question_of};
use std::alloc::Global;

/// A round of an operation begins, upon the objects that are named so far and what is kept.
pub fn begin_round(
    alloc: Global,
    state: &ClientState,
    kept: List<Kept>,
    op: Op,
    number: u64,
    round: u8,
    named: Named,
) -> Result<Planned, NoMemory>
    ensures { IfOk result (λ planned. planned_step state.now planned
        ≡ begin_round (record state.now { kept = kept }) op number round named) }
{
    let bounds = state.keys.bounds();
    let question = question_of(alloc, bounds, &op, round, kept.as_slice(), named)?;
    begins(
        alloc,
        state,
        kept,
        Work::asking(alloc, op, number, round, question),
    )
}

/// A round begins that asks this.
fn begins(
    alloc: Global,
    state: &ClientState,
    kept: List<Kept>,
    work: Work,
) -> Result<Planned, NoMemory>
    ensures { IfOk result (λ planned. planned_step state.now planned
        ≡ begins (record state.now { kept = kept }) work) }
{
    let letters = requests(alloc, &state.keys, state.me, &work, work.whom_asked())?;
    Ok(Planned {
        kept: Some(marked_shown(&work.sets, kept)),
        turn: Turn::Begins(work),
        moved: Moved {
            letters,
            ended: None,
        },
    })
}

/// The preferred replicas were asked, and now the same is asked of the others.
#[tactic(auto, using(crate::proofs::Planning::passed, crate::proofs::Requesting::asked_in_any_phase))]
pub fn asks_others(alloc: Global, state: &ClientState, work: &Work) -> Result<Planned, NoMemory>
    requires { state.now.work ≡ Some work.now }
    ensures { IfOk result (λ planned. planned_step state.now planned ≡ asks_others state.now work.now) }
{
    let others = Whom::Others(first_object(&work.op));
    let letters = requests(alloc, &state.keys, state.me, work, others)?;
    Ok(Planned {
        kept: None,
        turn: Turn::Passes(Phase::Asking { all: true }),
        moved: Moved {
            letters,
            ended: None,
        },
    })
}
