ghost use Rattle.std.specs.Prelude.{◌≡◌, IfOk, Some};
ghost use Rattle.std.specs.List.{list_any};
ghost use Rattle.qu_client.specs.Steps.{next_round, is_behind, is_rest_due, rests, goes_on, ends_round};
ghost use Rattle.qu_client.specs.Plans.{planned_step};

use super::leaving::after_replies;
use super::rounds::begin_round;
use super::{ClientState, Planned, Turn};
use crate::needed::named_after;
use crate::work::{Counted, Work};
use qu_base::{List, NoMemory};
use qu_frames::{LAST_ROUND, Refusal, Verdict};
use qu_objects::Outcome;
use qu_question::{Kept, Named};
use std::alloc::Global;

/// A round that ended without an answer leaves out what its replies name as culled, and names too what they need.
pub fn ends_round(
    alloc: Global,
    state: &ClientState,
    kept: &[Kept],
    work: &Work,
    replies: &[Counted],
) -> Result<Planned, NoMemory>
    requires { state.now.work ≡ Some work.now }
    ensures { IfOk result (λ planned. planned_step state.now planned
        ≡ ends_round (record state.now { kept = kept.now }) (record work.now { replies = replies.now })) }
{
    let bounds = state.keys.bounds();
    let left = after_replies(alloc, bounds, replies, kept)?;
    let named = named_after(alloc, bounds, replies, &work.named)?;
    goes_on(alloc, state, left, named, work, replies)
}

/// The client rests, or the next round begins at once.
fn goes_on(
    alloc: Global,
    state: &ClientState,
    kept: List<Kept>,
    named: Named,
    work: &Work,
    replies: &[Counted],
) -> Result<Planned, NoMemory>
    requires { state.now.work ≡ Some work.now }
    ensures { IfOk result (λ planned. planned_step state.now planned
        ≡ goes_on (record state.now { kept = kept }) (record work.now { named = named; replies = replies.now })) }
{
    if is_rest_due(work.round, replies) {
        rests(alloc, state, kept, named, work)
    } else {
        next_round(alloc, state, kept, named, work)
    }
}

/// Before the next round the client rests as long as is drawn for the round that ended.
#[tactic(auto, using(crate::proofs::Planning::rested))]
fn rests(
    alloc: Global,
    state: &ClientState,
    kept: List<Kept>,
    named: Named,
    work: &Work,
) -> Result<Planned, NoMemory>
    requires { state.now.work ≡ Some work.now }
    ensures { IfOk result (λ planned. planned_step state.now planned
        ≡ rests (record state.now { kept = kept }) (record work.now { named = named })) }
{
    let mut waits = state.waits.clone()?;
    let ticks = waits.next(work.round);
    let turn = Turn::Rests {
        ticks,
        waits,
        named,
    };
    Ok(Planned::kept(alloc, kept, turn))
}

/// After a round the next one begins, unless it was the last.
pub fn next_round(
    alloc: Global,
    state: &ClientState,
    kept: List<Kept>,
    named: Named,
    work: &Work,
) -> Result<Planned, NoMemory>
    ensures { IfOk result (λ planned. planned_step state.now planned
        ≡ next_round (record state.now { kept = kept }) (record work.now { named = named })) }
{
    if work.round >= LAST_ROUND {
        return Ok(Planned::ended(alloc, kept, Outcome::GaveUp));
    }
    let op = work.op.copy(alloc)?;
    begin_round(alloc, state, kept, op, work.number, work.round + 1, named)
}

/// Whether the sets were behind a replica, and a round is left.
fn is_rest_due(round: u8, replies: &[Counted]) -> bool
    ensures { result ≡ is_rest_due round replies.now }
{
    round < LAST_ROUND && is_any_behind(replies)
}

/// Whether a replica has a later candidate than the sets showed.
fn is_any_behind(replies: &[Counted]) -> bool
    ensures { result ≡ list_any (λ counted. is_behind counted.verdict) replies.now }
{
    replies.iter().any(|told| is_behind(told.verdict.get()))
}

/// Whether this verdict says so.
fn is_behind(verdict: &Verdict) -> bool
    ensures { result ≡ is_behind verdict.now }
{
    match verdict {
        Verdict::Refused(Refusal::NotCurrent(_, _)) => true,
        _ => false,
    }
}
