ghost use Rattle.std.specs.Prelude.{◌≡◌, ℕ, map, Some, IfOk, MatchOption};
ghost use Rattle.std.specs.Option.{option_copied};
ghost use Rattle.qu_trace.specs.Letters.{numbered};
ghost use Rattle.qu_claims.specs.Answers.{delivered_round};
ghost use Rattle.qu_known.specs.Answers.{rounds_answered};
ghost use Rattle.qu_claims.specs.Order.{query_effect, AnswersFirst};
ghost use Rattle.qu_points.specs.Facts.{AreFacts};
ghost use Rattle.qu_points.specs.Points.{effect_of, act_mark, round_by};

use super::acts::is_handled;
use super::answers::first_answer;
use super::facts::Facts;
use qu_base::{ClientId, List, NoMemory};
use qu_frames::Frame;
use qu_known::{Answered, Tracked, answered_by};
use qu_machine::OpRecord;
use qu_marks::first_mark;
use qu_objects::{Act, Op, Outcome, act_digest};
use qu_trace::DecodedTrace;
use std::alloc::Global;

/// The event at which an operation of a run took effect, None where it took none.
pub fn effect(
    alloc: Global,
    trace: &DecodedTrace<'_>,
    facts: &Facts,
    operation: &OpRecord,
) -> Result<Option<u64>, NoMemory>
    requires { AreFacts trace.now facts.now }
    ensures { IfOk result
        (λ found. MatchOption found ((event : ℕ) → ¬ (effect_of trace.now operation.now event operation.now.op))
        (λ event. effect_of trace.now operation.now event operation.now.op)) }
{
    match &operation.op {
        Op::Act(act) => {
            let tracked = facts.tracker.as_slice();
            act_mark(alloc, tracked, facts.acts.as_slice(), operation, act)
        }
        Op::Query(_) => Ok(query_effect(trace, facts.answers.as_slice(), operation)),
    }
}

/// The first event after which a candidate of a handled update was decided.
fn act_mark(
    alloc: Global,
    tracked: &[Tracked],
    acts: &[(ClientId, u64, Act)],
    operation: &OpRecord,
    act: &Act,
) -> Result<Option<u64>, NoMemory>
    ensures { IfOk result (λ mark. mark ≡ act_mark operation.now.client operation.now.number act.now acts.now
        tracked.now) }
{
    if !is_handled(acts, operation.client, operation.number, act) {
        return Ok(None);
    }
    let digest = act_digest(alloc, operation.client, operation.number, act)?;
    Ok(first_mark(tracked, operation.client, act, digest))
}

/// The event at which a query took effect, None where it did not complete.
fn query_effect(
    trace: &DecodedTrace<'_>,
    answers: &[List<Answered>],
    operation: &OpRecord,
) -> Option<u64>
    requires answered { answers.now ≡ map rounds_answered trace.now.entries }
    ensures { MatchOption result
        ((event : ℕ) → ¬ (query_effect trace.now operation.now event operation.now.reply))
        (λ event. query_effect trace.now operation.now event operation.now.reply) }
{
    match &operation.reply {
        Some((reply, Outcome::Done(_))) => {
            first_answer_of(trace, answers, operation.client, operation.number, *reply)
        }
        Some((_, Outcome::GaveUp)) | None => None,
    }
}

/// The first event at which a replica answers the round of the answer that this event delivers.
fn first_answer_of(
    trace: &DecodedTrace<'_>,
    answers: &[List<Answered>],
    client: ClientId,
    number: u64,
    reply: u64,
) -> Option<u64>
    requires answered { answers.now ≡ map rounds_answered trace.now.entries }
    ensures { MatchOption result ((event : ℕ) → ¬ (AnswersFirst trace.now client number reply event))
        (λ event. AnswersFirst trace.now client number reply event) }
{
    match delivered_round(trace, reply) {
        Some(round) => {
            let asked = Answered {
                client,
                number,
                round,
            };
            first_answer(answers, asked)
        }
        None => None,
    }
}

/// The round of the answer that an event delivers, None where it delivers none.
#[tactic(auto, using(crate::proofs::Taken::AnsweredRounds::round_offered))]
fn delivered_round(trace: &DecodedTrace<'_>, event: u64) -> Option<u8>
    ensures { result ≡ delivered_round trace.now (numbered trace.now.entries event) }
{
    let index = event.checked_sub(1)?;
    round_in(trace.offered(index as usize))
}

/// The round of the answer that a frame is.
#[tactic(auto, using(crate::proofs::Taken::AnsweredRounds::round_of_answer))]
fn round_in(frame: Option<&Frame>) -> Option<u8>
    ensures { result ≡ round_by (option_copied frame.entry) }
{
    let answer = answered_by(frame?);
    answer.map(|answer| answer.round)
}
