//! What is found by reading the replies of a run, event by event.
ghost use Rattle.std.specs.Prelude.{◌≡◌, ◌<◌, ◌+◌, ◌^◌, length, map, slice_get, Some, All, IfOk, OnOk};
ghost use Rattle.qu_trace.specs.declared.trace.Entry.{Entry as AnEntry};
ghost use Rattle.qu_world.specs.Run.{IsRun};
ghost use Rattle.qu_claims.specs.Times.{world_after};
ghost use Rattle.qu_known.specs.Answers.{rounds_answered};
ghost use Rattle.qu_known.specs.Known.{AreKnown, AreOfBytes};
ghost use Rattle.qu_marks.specs.Tracker.{with_all, TellsOf, AreAccepted, Tracks};

use super::tracker::Tracker;
use qu_base::{List, NoMemory};
use qu_known::{Answered, Known, Tracked, are_of_bytes, see_entry};
use qu_trace::{DecodedTrace, Trace};
use std::alloc::Global;

/// What the replies of a run tell.
#[derive(Drop)]
pub struct Findings {
    /// The candidates that replicas accepted, with the events after which they were decided.
    pub tracker: Tracker,
    /// For each event the rounds that it answers.
    pub answers: List<List<Answered>>,
}

/// What the replies of a run tell. They show all that replicas accept, so that no step of a party is done again.
pub fn find(alloc: Global, trace: &DecodedTrace<'_>) -> Result<Findings, NoMemory>
    requires { IsRun trace.now }
    ensures tracked { IfOk result (λ found. Tracks trace.now (length trace.now.entries) found.tracker) }
    ensures answered { IfOk result (λ found. found.answers ≡ map rounds_answered trace.now.entries) }
{
    let run = trace.trace();
    are_of_bytes(run.entries.as_slice());
    let mut known = Known::opening(alloc, &run.setup)?;
    let mut tracker = begin(alloc, trace, &known)?;
    let mut answers = List::new(alloc);
    for index in 0..run.entries.len() {
        let rounds = follow(alloc, trace, index, &mut known, &mut tracker)?;
        answers.push(rounds)?;
    }
    Ok(Findings { tracker, answers })
}

/// What is tracked before the first event.
fn begin(alloc: Global, trace: &DecodedTrace<'_>, known: &Known) -> Result<Tracker, NoMemory>
    requires run { IsRun trace.now }
    requires known { AreKnown (world_after trace.now 0).replicas known.now }
    ensures { IfOk result (λ tracker. Tracks trace.now 0 tracker) }
{
    let mut tracker = Tracker::new(alloc);
    let all = known.tracked(alloc, objects(trace.trace()))?;
    mark(trace, known, &mut tracker, all.as_slice(), 0)?;
    Ok(tracker)
}

/// Goes on by the event of the entry with this index, and gives the rounds that it answers.
fn follow(
    alloc: Global,
    trace: &DecodedTrace<'_>,
    index: usize,
    known: &mut Known,
    tracker: &mut Tracker,
) -> Result<List<Answered>, NoMemory>
    requires run { IsRun trace.now }
    requires bytes { AreOfBytes trace.now.entries }
    requires within { index < length trace.now.entries }
    requires fits { index + 1 < 2 ^ 64 }
    requires known { AreKnown (world_after trace.now index).replicas known.old }
    requires tracked { Tracks trace.now index tracker.old }
    ensures known { OnOk result (AreKnown (world_after trace.now (index + 1)).replicas known.new) }
    ensures answered { IfOk result (λ rounds. (entry : AnEntry) → slice_get trace.now.entries index ≡ Some entry
        → rounds ≡ rounds_answered entry) }
    ensures tracked { OnOk result (Tracks trace.now (index + 1) tracker.new) }
{
    let told = see_entry(alloc, trace, index, known)?;
    if told.news.is_empty() {
        return Ok(told.rounds);
    }
    mark(
        trace,
        known,
        tracker,
        told.news.as_slice(),
        index as u64 + 1,
    )?;
    Ok(told.rounds)
}

/// Tracks what is new after this event, and marks what was decided by it.
fn mark(
    trace: &DecodedTrace<'_>,
    known: &Known,
    tracker: &mut Tracker,
    news: &[Tracked],
    event: u64,
) -> Result<(), NoMemory>
    requires run { IsRun trace.now }
    requires known { AreKnown (world_after trace.now event).replicas known.now }
    requires accepted { AreAccepted (world_after trace.now event) (with_all news.now tracker.old) }
    requires tells { All (TellsOf trace.now event) (with_all news.now tracker.old) }
    ensures { OnOk result (Tracks trace.now event tracker.new) }
{
    tracker.add_all(news)?;
    tracker.settle(trace.trace(), known, event);
    Ok(())
}

/// How many objects there are.
fn objects(trace: &Trace) -> u16
    requires { IsRun trace.now }
    ensures { result ≡ length trace.now.setup.kinds }
{
    trace.setup.kinds.len() as u16
}
