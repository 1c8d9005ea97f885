ghost use Rattle.std.specs.Prelude.{◌≡◌, ◌≤◌, All, IsTrue, filter, length, false};
ghost use Rattle.qu_base.specs.Bounds.{quorum};
ghost use Rattle.qu_history.specs.History.{is_history};
ghost use Rattle.qu_history.specs.Sets.{entries_of, greatest};
ghost use Rattle.qu_class.specs.Class.{is_latest};
ghost use Rattle.qu_class.specs.Repairable.{is_shown_of_kind, greatest_of_kind, object_base};
ghost use Rattle.qu_class.specs.Rows.{AreWellFormed, IsGreatestOfKind};

use qu_base::{Bounds, ObjectId};
use qu_history::{History, Sets, greater_found};
use qu_stamp::{Candidate, Stamp};

/// The object candidate: the greatest candidate without barrier of an order that may be repaired. Each history holds
/// the opening one.
pub fn object_base(sets: &Sets, object: ObjectId, bounds: &Bounds) -> Candidate
    ensures value { result ≡ object_base bounds.now (entries_of object sets.now) }
    ensures greatest { quorum bounds.now ≤ length (entries_of object sets.now)
        → IsGreatestOfKind bounds.now (entries_of object sets.now) false result }
    ensures formed { AreWellFormed bounds.now (entries_of object sets.now) }
{
    greatest_of_kind(sets, object, false, bounds.r()).unwrap_or(Candidate::opening())
}

/// Whether the candidate has the latest stamp, the opening one where there are no histories.
#[tactic(auto, unfolding(qu_stamp::specs::Stamp::same_stamp), using(qu_history::proofs::Method::latest_of_none))]
pub(super) fn is_latest(sets: &Sets, object: ObjectId, candidate: &Candidate) -> bool
    ensures { result ≡ is_latest (entries_of object sets.now) candidate.now }
{
    candidate.stamp == sets.latest(object).unwrap_or(Stamp::opening())
}

/// The greatest candidate, of those with a barrier or of those without, that at least so many of the histories hold.
#[tactic(auto, using(qu_history::proofs::Shown::shown_laws))]
pub(super) fn greatest_of_kind(
    sets: &Sets,
    object: ObjectId,
    barrier: bool,
    least: u8,
) -> Option<Candidate>
    ensures value { result ≡ greatest_of_kind barrier least (entries_of object sets.now) }
    ensures histories { All (λ entry. IsTrue (is_history entry.candidates)) (entries_of object sets.now) }
{
    let entries = sets.find(object);
    let mut greatest = None;
    for entry in entries {
        let last = last_of_kind(sets, object, barrier, least, &entry.history);
        greatest = greater_found(greatest, last);
    }
    greatest
}

/// The greatest such candidate of one history: the last one, since stamps rise.
#[tactic(auto, using(qu_history::proofs::Shown::last_laws))]
fn last_of_kind(
    sets: &Sets,
    object: ObjectId,
    barrier: bool,
    least: u8,
    history: &History,
) -> Option<Candidate>
    ensures value { result ≡ greatest
        (filter (is_shown_of_kind barrier least (entries_of object sets.now)) history.now.candidates) }
    ensures rising { IsTrue (is_history history.now.candidates) }
{
    let candidates = history.candidates().as_slice();
    for place in (0..candidates.len()).rev() {
        let candidate = candidates[place];
        if is_shown_of_kind(sets, object, barrier, least, &candidate) {
            return Some(candidate);
        }
    }
    None
}

/// Whether the candidate is one of those with a barrier, or of those without, and so many of the histories hold it.
pub fn is_shown_of_kind(
    sets: &Sets,
    object: ObjectId,
    barrier: bool,
    least: u8,
    candidate: &Candidate,
) -> bool
    ensures { result ≡ is_shown_of_kind barrier least (entries_of object sets.now) candidate.now }
{
    candidate.stamp.barrier == barrier && sets.count(object, candidate) >= least
}
