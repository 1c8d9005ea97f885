ghost use Rattle.std.specs.Prelude.{◌≡◌, All, IsTrue, filter};
ghost use Rattle.qu_base.specs.Bounds.{AreThresholds, repair};
ghost use Rattle.qu_history.specs.History.{is_history};
ghost use Rattle.qu_history.specs.Sets.{entries_of, greatest};
ghost use Rattle.qu_plan.specs.Chosen.{passes_over, is_passed_at, is_skipped, may_be_chosen, greatest_chosen, chosen_on};
ghost use Rattle.qu_plan.specs.Linking.{linking};
ghost use Rattle.qu_class.specs.Rows.{AreWellFormed};

use super::known::Known;
use crate::linked::is_passed;
use qu_base::ObjectId;
use qu_class::{is_shown_of_kind, member_stamp};
use qu_history::{History, greater_found};
use qu_stamp::Candidate;

/// What a copy on the object copies: the greatest candidate without barrier that may be repaired and is not skipped.
pub(super) fn chosen_on(known: &Known<'_>, object: ObjectId) -> Candidate
    ensures value { result ≡ chosen_on known.now.bounds known.now.sets (linking known.now.facts) object }
    ensures formed { AreWellFormed known.now.bounds (entries_of object known.now.sets) }
{
    greatest_chosen(known, object).unwrap_or(Candidate::opening())
}

/// The greatest of those that may be copied.
#[tactic(auto, using(qu_history::proofs::Shown::shown_laws))]
fn greatest_chosen(known: &Known<'_>, object: ObjectId) -> Option<Candidate>
    ensures value { result ≡ greatest_chosen known.now.bounds known.now.sets (linking known.now.facts) object }
    ensures thresholds { AreThresholds known.now.bounds }
    ensures histories { All (λ entry. IsTrue (is_history entry.candidates)) (entries_of object known.now.sets) }
{
    let least = known.bounds().r();
    let entries = known.sets().find(object);
    let mut greatest = None;
    for entry in entries {
        let last = last_chosen(known, object, least, &entry.history);
        greatest = greater_found(greatest, last);
    }
    greatest
}

/// The greatest of one history: the last one, since stamps rise.
#[tactic(auto, using(qu_history::proofs::Shown::last_laws))]
fn last_chosen(
    known: &Known<'_>,
    object: ObjectId,
    least: u8,
    history: &History,
) -> Option<Candidate>
    requires { least ≡ repair known.now.bounds }
    ensures value { result ≡ greatest (filter
        (may_be_chosen known.now.bounds known.now.sets (linking known.now.facts) object) history.now.candidates) }
    ensures rising { IsTrue (is_history history.now.candidates) }
{
    let candidates = history.candidates().as_slice();
    for place in (0..candidates.len()).rev() {
        let candidate = candidates[place];
        if may_be_chosen(known, object, least, &candidate) {
            return Some(candidate);
        }
    }
    None
}

/// Whether the candidate may be repaired, and is not skipped.
fn may_be_chosen(known: &Known<'_>, object: ObjectId, least: u8, candidate: &Candidate) -> bool
    requires { least ≡ repair known.now.bounds }
    ensures { result ≡ may_be_chosen known.now.bounds known.now.sets (linking known.now.facts) object candidate.now }
{
    is_shown_of_kind(known.sets(), object, false, least, candidate)
        && !is_skipped(known, object, candidate)
}

/// Whether another object of the candidate's group has gone on without it.
#[tactic(auto, unfolding(crate::specs::Chosen::is_skipped))]
fn is_skipped(known: &Known<'_>, object: ObjectId, candidate: &Candidate) -> bool
    ensures { result ≡ is_skipped known.now.bounds known.now.sets (linking known.now.facts) object candidate.now }
{
    let members = candidate.group.pairs();
    members
        .iter()
        .any(|member| is_passed_at(known, object, candidate, *member))
}

/// Whether this member's object is one that has gone on without the candidate.
#[tactic(auto, unfolding(crate::specs::Chosen::passes_over))]
fn is_passed_at(
    known: &Known<'_>,
    object: ObjectId,
    candidate: &Candidate,
    member: (ObjectId, u64),
) -> bool
    ensures { result
        ≡ is_passed_at known.now.bounds known.now.sets (linking known.now.facts) object candidate.now member }
{
    if member.0 == object {
        return false;
    }
    match known.version(member.0) {
        Some(version) => {
            let stamp = member_stamp(candidate, member);
            let link = known.link(member.0, &version.stamp, object);
            stamp.is_below(&version.stamp) && is_passed(&stamp, link)
        }
        None => false,
    }
}
