ghost use Rattle.std.specs.Prelude.{◌≡◌, ◌&&◌, ℕ, [], ◌∷◌, ◌++◌, position, is_some, All, OnOk};
ghost use Rattle.std.specs.List.{AllZip, list_any};
ghost use Rattle.qu_claims.specs.Times.{world_after};
ghost use Rattle.qu_known.specs.Known.{AreKnown};
ghost use Rattle.qu_known.specs.Tracked.{is_tracked};
ghost use Rattle.qu_marks.specs.Tracker.{is_known_established, is_next_known, with_tracked, with_all, is_child, IsSettled, IsDecidedMark, AreAccepted};

use qu_base::{Bounds, List, NoMemory, ObjectId};
use qu_known::{Known, Tracked};
use qu_stamp::Candidate;
use qu_trace::Trace;
use std::alloc::Global;
use std::marker::Model;

/// The candidates that replicas accepted, with the events after which they were decided.
pub struct Tracker {
    tracked: Vec<Tracked>,
}

/// By hand, so that a value is let go in one step wherever that is.
impl Drop for Tracker {
    fn drop(self) {
        let Tracker { tracked: _ } = self;
    }
}

impl Model for Tracker {
    ghost use Rattle.std.specs.Prelude.{List};
    ghost use Rattle.qu_known.specs.declared.tracked.Tracked.{Tracked};

    ghost Value = { List Tracked };

    ghost view = { λ tracker. tracker.tracked.items };
}

impl Tracker {
    pub fn new(alloc: Global) -> Tracker
        ensures { result ≡ [] }
    {
        Tracker {
            tracked: Vec::new(alloc),
        }
    }

    pub fn as_slice(&self) -> &[Tracked]
        ensures { result.now ≡ self.now }
    {
        self.tracked.as_slice()
    }

    /// Tracks each of these candidates, once.
    #[tactic(auto, unfolding(crate::specs::Tracker::with_all))]
    pub fn add_all(&mut self, news: &[Tracked]) -> Result<(), NoMemory>
        ensures { OnOk result (self.new ≡ with_all news.now self.old) }
    {
        for new in news {
            self.add(new)?;
        }
        Ok(())
    }

    #[tactic(auto, unfolding(crate::specs::Tracker::with_tracked))]
    fn add(&mut self, new: &Tracked) -> Result<(), NoMemory>
        ensures { OnOk result (self.new ≡ with_tracked new.now self.old) }
    {
        if !self.is_tracked(new.object, &new.candidate) {
            self.tracked.push(Tracked {
                object: new.object,
                candidate: new.candidate,
                decided: None,
            })?;
        }
        Ok(())
    }

    #[tactic(auto, unfolding(qu_known::specs::Tracked::is_tracked, qu_stamp::specs::Stamp::same_stamp))]
    fn is_tracked(&self, object: ObjectId, candidate: &Candidate) -> bool
        ensures { result ≡ is_tracked object candidate.now self.now }
    {
        self.tracked.iter().any(|tracked| tracked.object == object
            && tracked.candidate == *candidate)
    }

    /// Marks what is decided after this event, and was not before, with the event.
    pub fn settle(&mut self, trace: &Trace, known: &Known, event: u64)
        requires known { AreKnown (world_after trace.now event).replicas known.now }
        requires accepted { AreAccepted (world_after trace.now event) self.old }
        requires sound { All (IsDecidedMark (world_after trace.now event)) self.old }
        ensures { AllZip (IsSettled (world_after trace.now event) event) self.old self.new }
    {
        while let Some(index) = self.next(known, &trace.setup.bounds) {
            self.tracked[index].decided = Some(event);
        }
    }

    /// The first undecided candidate that is to be decided by a rule.
    fn next(&self, known: &Known, bounds: &Bounds) -> Option<usize>
        ensures { result ≡ position (is_next_known bounds.now known.now self.now) self.now }
    {
        self.tracked
            .iter()
            .position(|tracked| self.is_next(known, bounds, tracked))
    }

    #[tactic(auto, unfolding(crate::specs::Tracker::is_next_known))]
    fn is_next(&self, known: &Known, bounds: &Bounds, tracked: &Tracked) -> bool
        ensures { result ≡ is_next_known bounds.now known.now self.now tracked.now }
    {
        if tracked.decided.is_some() {
            return false;
        }
        is_established(known, bounds, tracked) || self.has_child(tracked)
    }

    /// Whether a decided candidate rests upon this one.
    fn has_child(&self, tracked: &Tracked) -> bool
        ensures { result ≡ list_any (is_child tracked.now) self.now }
    {
        self.tracked.iter().any(|other| is_child(tracked, other))
    }
}

/// Whether the other one is decided and rests upon this one.
#[tactic(auto, unfolding(qu_stamp::specs::Stamp::same_stamp))]
fn is_child(tracked: &Tracked, other: &Tracked) -> bool
    ensures { result ≡ is_child tracked.now other.now }
{
    other.decided.is_some()
        && other.object == tracked.object
        && other.candidate.prior == tracked.candidate.stamp
}

/// Whether the candidate has no barrier, and so many replicas accepted it that with as many liars as there
/// may be they make a quorum.
fn is_established(known: &Known, bounds: &Bounds, tracked: &Tracked) -> bool
    ensures { result ≡ is_known_established bounds.now known.now tracked.now.object tracked.now.candidate }
{
    let accepting = known.accepting(tracked);
    !tracked.candidate.stamp.barrier
        && accepting + usize::from(bounds.b()) >= usize::from(bounds.q())
}
