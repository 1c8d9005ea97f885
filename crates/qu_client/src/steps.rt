ghost use Rattle.std.specs.Prelude.{◌≡◌, IfOk, Some};
ghost use Rattle.qu_client.specs.Verdicts.{fitting};
ghost use Rattle.qu_client.specs.Work.{with_reply};
ghost use Rattle.qu_client.specs.Steps.{agreed, judged, counted_in};
ghost use Rattle.qu_client.specs.Plans.{planned_step};

use super::endings::ends_round;
use super::{ClientState, Planned, Turn};
use crate::verdicts::{fitting, is_agreed, is_hopeless};
use crate::work::{Counted, Work};
use qu_base::{List, NoMemory, ObjectId, ReplicaId};
use qu_frames::Verdict;
use qu_objects::Outcome;
use qu_question::Kept;
use std::alloc::Global;

/// What a reply makes: its verdict counts where it is of the round under way, and the first of its replica. These
/// histories are kept.
pub fn counted_in(
    alloc: Global,
    state: &ClientState,
    kept: List<Kept>,
    replica: ReplicaId,
    number: u64,
    round: u8,
    verdict: &Verdict,
    culled: &List<(ObjectId, ReplicaId)>,
) -> Result<Planned, NoMemory>
    ensures { IfOk result (λ planned. planned_step state.now planned
        ≡ counted_in (record state.now { kept = kept }) state.now.work replica number round verdict.now culled.now) }
{
    match &state.work {
        Some(work) if work.counts(replica, number, round) => {
            let replies = work.with_reply(alloc, replica, verdict, culled)?;
            judged(alloc, state, kept, work, replies, verdict)
        }
        _ => Ok(Planned::kept(alloc, kept, Turn::Stays)),
    }
}

/// The round whose last verdict is this one: a quorum agrees with it, or the round ends since none can agree, or more
/// verdicts are awaited.
#[tactic(auto, using(crate::proofs::Planning::counted))]
fn judged(
    alloc: Global,
    state: &ClientState,
    kept: List<Kept>,
    work: &Work,
    replies: List<Counted>,
    verdict: &Verdict,
) -> Result<Planned, NoMemory>
    requires { state.now.work ≡ Some work.now }
    ensures { IfOk result (λ planned. planned_step state.now planned
        ≡ judged (record state.now { kept = kept }) (record work.now { replies = replies }) verdict.now) }
{
    let bounds = state.keys.bounds();
    if is_agreed(bounds, &work.body, replies.as_slice(), verdict) {
        return agreed(alloc, state, kept, work, replies.as_slice(), verdict);
    }
    if is_hopeless(bounds, &work.body, work.whom_asked(), replies.as_slice()) {
        return ends_round(alloc, state, kept.as_slice(), work, replies.as_slice());
    }
    Ok(Planned::kept(alloc, kept, Turn::Counts(replies)))
}

/// A quorum agrees with this verdict: the operation ends with its answer, or where it tells none the round ends.
fn agreed(
    alloc: Global,
    state: &ClientState,
    kept: List<Kept>,
    work: &Work,
    replies: &[Counted],
    verdict: &Verdict,
) -> Result<Planned, NoMemory>
    requires { state.now.work ≡ Some work.now }
    ensures { IfOk result (λ planned. planned_step state.now planned
        ≡ agreed (record state.now { kept = kept }) (record work.now { replies = replies.now })
        (fitting work.now.body verdict.now)) }
{
    match fitting(&work.body, verdict) {
        Some(answer) => {
            let outcome = Outcome::Done(answer.copy(alloc)?);
            Ok(Planned::ended(alloc, kept, outcome))
        }
        None => ends_round(alloc, state, kept.as_slice(), work, replies),
    }
}
