ghost use Rattle.std.specs.Prelude.{◌≡◌, ◌≤◌, length, filter, IfOk};
ghost use Rattle.qu_base.specs.declared.party.ObjectId.{ObjectId as Object};
ghost use Rattle.qu_base.specs.Bounds.{quorum};
ghost use Rattle.qu_history.specs.Sets.{histories, entries_of, greatest};
ghost use Rattle.qu_history.specs.Trimming.{is_held_by, greatest_shown, greater_of, greater_found, is_up_to, entries_up_to, trimmed_set, trimmed};

use super::entries::order_of;
use super::{History, Sealed, SetOf, Sets};
use qu_base::{Bounds, List, NoMemory};
use qu_stamp::Candidate;
use std::alloc::Global;

impl Sets {
    /// The sets in which each object has those of its entries that show nothing above the greatest candidate of
    /// an order that may be repaired, where a quorum of them is left, and else all of its entries.
    #[tactic(auto, using(crate::proofs::TrimmedSets::trimmed_enough))]
    pub fn trim(&self, alloc: Global, bounds: &Bounds) -> Result<Sets, NoMemory>
        ensures value { IfOk result (λ sets. sets ≡ trimmed bounds.now self.now) }
        ensures enough { (object : Object) → quorum bounds.now ≤ length (entries_of object self.now)
            → IfOk result (λ sets. quorum bounds.now ≤ length (entries_of object sets)) }
    {
        let objects = trim_all(alloc, self.objects().as_slice(), bounds)?;
        Sets::of(alloc, objects)
    }
}

/// The objects, each with its entries trimmed.
#[tactic(auto, unfolding(crate::specs::Trimming::trimmed))]
fn trim_all(alloc: Global, sets: &[SetOf], bounds: &Bounds) -> Result<List<SetOf>, NoMemory>
    ensures { IfOk result (λ objects. objects ≡ trimmed bounds.now sets.now) }
{
    let mut objects = List::new(alloc);
    for set in sets {
        objects.push(trim_set(alloc, set, bounds)?)?;
    }
    Ok(objects)
}

/// The object without the entries that show something above all that may be repaired, where a quorum is left.
fn trim_set(alloc: Global, set: &SetOf, bounds: &Bounds) -> Result<SetOf, NoMemory>
    ensures { IfOk result (λ found. found ≡ trimmed_set bounds.now set.now) }
{
    let entries = set.entries.as_slice();
    let greatest = greatest_shown(entries, usize::from(bounds.r()));
    Ok(SetOf {
        object: set.object,
        entries: entries_up_to(alloc, bounds, greatest, entries)?,
    })
}

/// The entries that show nothing above the candidate, where a quorum of them is left, and else all of them.
fn entries_up_to(
    alloc: Global,
    bounds: &Bounds,
    candidate: Option<Candidate>,
    entries: &[Sealed],
) -> Result<List<Sealed>, NoMemory>
    ensures { IfOk result (λ found. found ≡ entries_up_to bounds.now candidate entries.now) }
{
    let Some(candidate) = candidate else {
        return Sealed::copy_all(alloc, entries);
    };
    let left = up_to(alloc, &candidate, entries)?;
    if left.len() < usize::from(bounds.q()) {
        return Sealed::copy_all(alloc, entries);
    }
    Ok(left)
}

/// The entries that show nothing above the candidate.
fn up_to(alloc: Global, candidate: &Candidate, entries: &[Sealed]) -> Result<List<Sealed>, NoMemory>
    ensures { IfOk result (λ found. found ≡ filter (is_up_to candidate.now) entries.now) }
{
    let mut left = List::new(alloc);
    for entry in entries {
        if !candidate.stamp.is_below(&entry.history.latest()) {
            left.push(entry.copy(alloc)?)?;
        }
    }
    Ok(left)
}

/// The greatest candidate that at least so many of the entries hold.
#[tactic(auto, using(crate::proofs::Shown::shown_laws))]
fn greatest_shown(entries: &[Sealed], least: usize) -> Option<Candidate>
    ensures { result ≡ greatest_shown (histories entries.now) least }
{
    let mut greatest = None;
    for entry in entries {
        let last = last_shown(entries, least, &entry.history);
        greatest = greater_found(greatest, last);
    }
    greatest
}

/// The greater of the best so far and what was found.
pub fn greater_found(best: Option<Candidate>, found: Option<Candidate>) -> Option<Candidate>
    ensures { result ≡ greater_found best found }
{
    match found {
        Some(candidate) => Some(greater_of(best, candidate)),
        None => best,
    }
}

/// The greater of a candidate and the best so far.
fn greater_of(best: Option<Candidate>, candidate: Candidate) -> Candidate
    ensures { result ≡ greater_of best candidate }
{
    match best {
        Some(best) if !best.is_before(&candidate) => best,
        _ => candidate,
    }
}

/// The greatest candidate of a history that at least so many of the entries hold: the last one, since stamps rise.
#[tactic(auto, using(crate::proofs::Shown::last_laws))]
fn last_shown(entries: &[Sealed], least: usize, history: &History) -> Option<Candidate>
    ensures { result ≡ greatest (filter (is_held_by (histories entries.now) least) history.now.candidates) }
{
    let candidates = history.candidates().as_slice();
    for place in (0..candidates.len()).rev() {
        let candidate = candidates[place];
        if order_of(entries, &candidate) >= least {
            return Some(candidate);
        }
    }
    None
}
