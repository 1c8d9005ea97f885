ghost use Rattle.std.specs.Prelude.{◌≡◌, ◌<◌, length, IfOk, Some};
ghost use Rattle.std.specs.List.{All};
ghost use Rattle.qu_stamp.specs.declared.limits.TheConstants.{LAST_TIME};
ghost use Rattle.qu_rows.specs.Rows.{AreOperated, stamp_after, fresh_candidate, members_seen, group_seen, fresh_stamps, fresh_keys, accepted_by, row_done};

use crate::asked::Asked;
use crate::decision::Decision;
use qu_base::{List, NoMemory, ObjectId};
use qu_frames::Verdict;
use qu_kept::{Performed, perform};
use qu_mends::{Accepted, Seen};
use qu_objects::{Act, ObjState};
use qu_stamp::{Candidate, Group, Stamp};
use std::alloc::Global;

/// Performs the act upon the versions on which it rests, and accepts all its candidates.
#[tactic(auto, unfolding(crate::specs::Rows::row_done))]
pub fn row_done(
    alloc: Global,
    asked: &Asked,
    act: &Act,
    seen: &[Seen],
    before: &[ObjState],
) -> Result<Decision, NoMemory>
    requires one_each { length seen.now ≡ length act.now }
    requires versions { length before.now ≡ length act.now }
    requires objects { AreOperated seen.now }
    requires in_time { All (λ one. one.latest.time < LAST_TIME) seen.now }
    ensures { IfOk result (λ decision. row_done asked.now act.now seen.now before.now ≡ Some decision) }
{
    let stamps = fresh_stamps(alloc, asked, seen)?;
    let Performed { states, answer } = perform(
        alloc,
        before,
        act,
        asked.client,
        asked.number,
        stamps.as_slice(),
    )?;
    let keys = fresh_keys(alloc, asked, seen)?;
    let group = fresh_group(alloc, asked, seen)?;
    let accepted = accept_each(alloc, asked, &group, seen, states)?;
    Ok(Decision::Answers {
        verdict: Verdict::Done {
            stamps: keys,
            answer,
        },
        accepted,
    })
}

/// The stamps of the candidates that the act makes.
fn fresh_stamps(alloc: Global, asked: &Asked, seen: &[Seen]) -> Result<List<Stamp>, NoMemory>
    requires { All (λ one. one.latest.time < LAST_TIME) seen.now }
    ensures value { IfOk result (λ stamps. stamps ≡ fresh_stamps asked.now seen.now) }
    ensures one_each { IfOk result (λ stamps. length stamps ≡ length seen.now) }
{
    let mut stamps = List::new(alloc);
    for one in seen {
        stamps.push(fresh_stamp(asked, one))?;
    }
    Ok(stamps)
}

/// The objects, each with the stamp of its candidate.
pub(super) fn fresh_keys(
    alloc: Global,
    asked: &Asked,
    seen: &[Seen],
) -> Result<List<(ObjectId, Stamp)>, NoMemory>
    requires { All (λ one. one.latest.time < LAST_TIME) seen.now }
    ensures { IfOk result (λ keys. keys ≡ fresh_keys asked.now seen.now) }
{
    let mut keys = List::new(alloc);
    for one in seen {
        keys.push((one.object, fresh_stamp(asked, one)))?;
    }
    Ok(keys)
}

/// The group of the candidates that an act makes on these objects.
pub(super) fn fresh_group(alloc: Global, asked: &Asked, seen: &[Seen]) -> Result<Group, NoMemory>
    requires objects { AreOperated seen.now }
    requires in_time { All (λ one. one.latest.time < LAST_TIME) seen.now }
    ensures { IfOk result (λ group. group ≡ group_seen asked.now seen.now) }
{
    if seen.len() == 1 {
        return Ok(Group::none());
    }
    let members = fresh_members(alloc, asked, seen)?;
    Ok(Group::new(members.as_slice()).unwrap())
}

/// The objects, each with the time of its candidate.
fn fresh_members(
    alloc: Global,
    asked: &Asked,
    seen: &[Seen],
) -> Result<List<(ObjectId, u64)>, NoMemory>
    requires { All (λ one. one.latest.time < LAST_TIME) seen.now }
    ensures { IfOk result (λ members. members ≡ members_seen asked.now seen.now) }
{
    let mut members = List::new(alloc);
    for one in seen {
        members.push((one.object, fresh_stamp(asked, one).time))?;
    }
    Ok(members)
}

/// The candidates, each with one of these states.
#[tactic(auto, using(crate::proofs::Keeping::keeping))]
fn accept_each(
    alloc: Global,
    asked: &Asked,
    group: &Group,
    seen: &[Seen],
    states: List<ObjState>,
) -> Result<List<Accepted>, NoMemory>
    requires { All (λ one. one.latest.time < LAST_TIME) seen.now }
    ensures { IfOk result (λ accepted. accepted ≡ accepted_by asked.now group.now seen.now states) }
{
    let mut accepted = List::new(alloc);
    for (one, state) in seen.iter().zip(states.into_vec()) {
        if let Some(candidate) = fresh_candidate(asked, group, one) {
            accepted.push(Accepted {
                object: one.object,
                candidate,
                state: Some(state),
            })?;
        }
    }
    Ok(accepted)
}

/// The candidate that an act makes on the object with this group, where it may rest upon one.
pub(super) fn fresh_candidate(asked: &Asked, group: &Group, one: &Seen) -> Option<Candidate>
    requires { one.now.latest.time < LAST_TIME }
    ensures { result ≡ fresh_candidate asked.now group.now one.now }
{
    match one.method {
        Some(base) => Some(Candidate {
            stamp: fresh_stamp(asked, one),
            prior: base.stamp,
            group: *group,
        }),
        None => None,
    }
}

/// Its stamp.
fn fresh_stamp(asked: &Asked, one: &Seen) -> Stamp
    requires { one.now.latest.time < LAST_TIME }
    ensures { result ≡ stamp_after asked.now one.now.latest }
{
    Stamp {
        time: one.latest.time + 1,
        barrier: false,
        client: asked.client,
        act: asked.act,
        set: asked.set,
    }
}
