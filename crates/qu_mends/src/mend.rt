ghost use Rattle.std.specs.Prelude.{◌≡◌, ◌≤◌, find, is_some, length, map, All, IfOk, IsTrue};
ghost use Rattle.std.specs.List.{list_all, list_any};
ghost use Rattle.std.specs.Option.{option_copied};
ghost use Rattle.qu_base.specs.Bounds.{quorum};
ghost use Rattle.qu_history.specs.Sets.{entries_of, latest_of};
ghost use Rattle.qu_mends.specs.Table.{has_no_room};
ghost use Rattle.qu_plan.specs.Linking.{linking};
ghost use Rattle.qu_mends.specs.Remedy.{mend_of, has_time, fresh_member, made_group, addition_by, missing_key, IsGrounded};
ghost use Rattle.qu_mends.specs.Causes.{HasTime, ArePartsOf, HasCause};
ghost use Rattle.qu_mends.specs.Mending.{is_held_part, is_overtaken, is_late, is_spent, missing_in, accepted_part, accepted_parts, mend_row_plan, mend_row_held, mend_row_current, mend_row_sound, mend_row_members, mend_row_version, mend_row_time, mend_row_full, mend_row_mended, decide_mend};

use super::course::course_of;
use super::{Accepted, Mending, Part};
use qu_base::{Bounds, ClientId, Digest, List, NoMemory, ObjectId};
use qu_history::Sets;
use qu_kept::{Remedy, added, stored};
use qu_plan::Fact;
use qu_stamp::{Candidate, Group, LAST_TIME, Stamp};
use qu_verdicts::Refusal;
use std::alloc::Global;

/// A request to mend an object, with what its culled sets say of it.
pub struct Mend {
    pub target: ObjectId,
    /// Who asks for it.
    pub client: ClientId,
    /// The digest of the culled sets.
    pub set: Digest,
    /// The latest stamp that they show of the target.
    pub latest: Stamp,
    /// What mends the target, by its class.
    pub remedy: Remedy,
    /// The objects that are mended, the target or those of a group, each with what mends it.
    pub remedies: List<(ObjectId, Remedy)>,
    /// The group of what is made on them; none where the target is mended alone, or a time would be after the last.
    pub made: Group,
}

/// By hand, so that a value is let go in one step wherever that is.
impl Drop for Mend {
    fn drop(self) {
        let Mend {
            target: _,
            client: _,
            set: _,
            latest: _,
            remedy: _,
            remedies: _,
            made: _,
        } = self;
    }
}

// The replica's table for a request to mend an object: its rows in the order in which they are tried, below the order
// itself. Before them stand that all objects are known and that each has a quorum of histories.
impl Mend {
    /// The request with these culled sets, which have this digest and a quorum of histories of the target. The facts
    /// tell of the evidence, if the target is to be copied.
    pub fn of(
        alloc: Global,
        sets: &Sets,
        set: Digest,
        target: ObjectId,
        client: ClientId,
        bounds: &Bounds,
        facts: &[Fact],
    ) -> Result<Mend, NoMemory>
        requires quorum { quorum bounds.now ≤ length (entries_of target sets.now) }
        ensures value { IfOk result
            (λ mend. mend ≡ mend_of bounds.now sets.now (linking facts.now) set target client) }
        ensures grounds { IfOk result (λ mend. IsGrounded bounds.now (entries_of target sets.now) mend.remedy) }
    {
        let course = course_of(alloc, sets, target, bounds, facts)?;
        let remedy = course.remedy;
        let made = made_group(alloc, sets, &course.group)?;
        Ok(Mend {
            target,
            client,
            set,
            latest: latest_of(sets, target),
            remedy,
            remedies: course.remedies(alloc, target)?,
            made,
        })
    }

    /// What a replica makes of it that has this of the objects that are mended.
    pub fn decide(&self, alloc: Global, parts: &[Part<'_>]) -> Result<Mending, NoMemory>
        ensures value { IfOk result (λ mending. mending ≡ decide_mend self.now parts.now) }
        ensures cause { ArePartsOf self.now parts.now → IfOk result (λ mending. HasCause self.now parts.now mending) }
    {
        self.first_row(alloc, parts)
    }

    /// What the first row says that fits.
    #[tactic(auto, unfolding(crate::specs::Mending::decide_mend, crate::specs::Table::first_given))]
    fn first_row(&self, alloc: Global, parts: &[Part<'_>]) -> Result<Mending, NoMemory>
        ensures { IfOk result (λ mending. mending ≡ decide_mend self.now parts.now) }
    {
        if let Some(refused) = self.row_plan() {
            return Ok(refused);
        }
        if let Some(held) = self.row_held(parts) {
            return Ok(held);
        }
        if let Some(refused) = self.row_current(parts) {
            return Ok(refused);
        }
        if let Some(refused) = self.row_sound() {
            return Ok(refused);
        }
        if let Some(refused) = self.row_members() {
            return Ok(refused);
        }
        if let Some(waits) = row_version(alloc, parts)? {
            return Ok(waits);
        }
        if let Some(refused) = self.row_time(parts) {
            return Ok(refused);
        }
        if let Some(refused) = row_full(parts) {
            return Ok(refused);
        }
        match self.row_mended(alloc, parts)? {
            Some(mended) => Ok(mended),
            None => Ok(Mending::Refuses(Refusal::TimeSpent(self.target))),
        }
    }

    /// Refuses a copy that has no plan.
    #[tactic(auto, unfolding(crate::specs::Mending::mend_row_plan))]
    fn row_plan(&self) -> Option<Mending>
        ensures { result ≡ mend_row_plan self.now }
    {
        match self.remedy {
            Remedy::Unplanned(object) => Some(Mending::Refuses(Refusal::Needs(object))),
            Remedy::Outdated(object) => Some(Mending::Refuses(Refusal::Stale(object))),
            _ => None,
        }
    }

    /// Is content where all that it would add is held already.
    #[tactic(auto, unfolding(crate::specs::Mending::mend_row_held))]
    fn row_held(&self, parts: &[Part<'_>]) -> Option<Mending>
        ensures { result ≡ mend_row_held self.now parts.now }
    {
        if !self.holds_all(parts) {
            return None;
        }
        match self.addition(&self.latest, &self.remedy) {
            Some(candidate) => Some(Mending::Holds {
                stamp: candidate.stamp,
            }),
            None => None,
        }
    }

    fn holds_all(&self, parts: &[Part<'_>]) -> bool
        ensures { result ≡ list_all (is_held_part self.now) parts.now }
    {
        parts.iter().all(|part| self.is_held(part))
    }

    fn is_held(&self, part: &Part<'_>) -> bool
        ensures { result ≡ is_held_part self.now part.now }
    {
        match self.addition(&part.latest, &part.remedy) {
            Some(candidate) => part.holds(&candidate),
            None => false,
        }
    }

    /// Refuses sets that do not show the replica's own latest candidate of each object, and what is not above it.
    #[tactic(auto, unfolding(crate::specs::Mending::mend_row_current))]
    fn row_current(&self, parts: &[Part<'_>]) -> Option<Mending>
        ensures { result ≡ mend_row_current self.now parts.now }
    {
        let late = self.first_late(parts)?;
        Some(Mending::Refuses(Refusal::NotCurrent(late.object, late.own_latest())))
    }

    fn first_late<'s, 'p>(&self, parts: &'s [Part<'p>]) -> Option<&'s Part<'p>>
        ensures { option_copied result ≡ find (is_late self.now) parts.now }
    {
        parts.iter().find(|part| self.is_late(part))
    }

    fn is_late(&self, part: &Part<'_>) -> bool
        ensures { result ≡ is_late self.now part.now }
    {
        part.latest.is_below(&part.own_latest())
            || is_overtaken(part, self.addition(&part.latest, &part.remedy))
    }

    /// Refuses where there is nothing to mend.
    #[tactic(auto, unfolding(crate::specs::Mending::mend_row_sound))]
    fn row_sound(&self) -> Option<Mending>
        ensures { result ≡ mend_row_sound self.now }
    {
        match self.remedy {
            Remedy::Nothing => Some(Mending::Refuses(Refusal::Sound(self.target))),
            _ => None,
        }
    }

    /// Refuses sets without a member of the group of what would be added.
    #[tactic(auto, unfolding(crate::specs::Mending::mend_row_members))]
    fn row_members(&self) -> Option<Mending>
        ensures { result ≡ mend_row_members self.now }
    {
        match self.remedy {
            Remedy::Unshown(member) => Some(Mending::Refuses(Refusal::Needs(member))),
            _ => None,
        }
    }

    /// Refuses to add what would have a time after the last.
    #[tactic(auto, unfolding(crate::specs::Mending::mend_row_time))]
    fn row_time(&self, parts: &[Part<'_>]) -> Option<Mending>
        ensures { result ≡ mend_row_time self.now parts.now }
    {
        let spent = self.first_spent(parts)?;
        Some(Mending::Refuses(Refusal::TimeSpent(spent.object)))
    }

    fn first_spent<'s, 'p>(&self, parts: &'s [Part<'p>]) -> Option<&'s Part<'p>>
        ensures { option_copied result ≡ find (is_spent self.now) parts.now }
    {
        parts
            .iter()
            .find(|part| self.addition(&part.latest, &part.remedy).is_none())
    }

    /// Adds the candidates on all objects.
    #[tactic(auto, unfolding(crate::specs::Mending::mend_row_mended))]
    fn row_mended(&self, alloc: Global, parts: &[Part<'_>]) -> Result<Option<Mending>, NoMemory>
        ensures { IfOk result (λ row. row ≡ mend_row_mended self.now parts.now) }
    {
        match self.addition(&self.latest, &self.remedy) {
            Some(candidate) => Ok(Some(Mending::Mends {
                stamp: candidate.stamp,
                accepted: self.accept(alloc, parts)?,
            })),
            None => Ok(None),
        }
    }

    /// What is added on each object.
    #[tactic(auto, using(crate::proofs::Parts::keeping_parts))]
    fn accept(&self, alloc: Global, parts: &[Part<'_>]) -> Result<List<Accepted>, NoMemory>
        ensures { IfOk result (λ accepted. accepted ≡ accepted_parts self.now parts.now) }
    {
        let mut accepted = List::new(alloc);
        for part in parts {
            if let Some(one) = self.accept_on(alloc, part)? {
                accepted.push(one)?;
            }
        }
        Ok(accepted)
    }

    fn accept_on(&self, alloc: Global, part: &Part<'_>) -> Result<Option<Accepted>, NoMemory>
        ensures { IfOk result (λ one. one ≡ accepted_part self.now part.now) }
    {
        match self.addition(&part.latest, &part.remedy) {
            Some(candidate) => Ok(Some(Accepted {
                object: part.object,
                candidate,
                state: stored(alloc, part.object, &candidate, &part.remedy, part.version)?,
            })),
            None => Ok(None),
        }
    }

    /// The candidate that would be added to an object with this remedy, of which the sets show this latest stamp. None
    /// has a time after the last.
    fn addition(&self, latest: &Stamp, remedy: &Remedy) -> Option<Candidate>
        ensures { result ≡ addition_by self.now latest.now remedy.now }
    {
        added(self.client, self.set, &self.made, latest, remedy)
    }
}

/// The group of the candidates that are made on these objects together.
#[tactic(auto, using(crate::proofs::MadeGroups::made_whole))]
fn made_group(alloc: Global, sets: &Sets, group: &Group) -> Result<Group, NoMemory>
    ensures { IfOk result (λ made. made ≡ made_group sets.now group.now) }
{
    let objects = group.pairs();
    if !have_times(sets, objects) {
        return Ok(Group::none());
    }
    let members = fresh_members(alloc, sets, objects)?;
    Ok(Group::new(members.as_slice()).unwrap())
}

/// Whether each object has a time after the latest that the sets show of it.
#[tactic(auto, using(crate::proofs::MadeGroups::all_timed))]
fn have_times(sets: &Sets, members: &[(ObjectId, u64)]) -> bool
    ensures value { result ≡ list_all (has_time sets.now) members.now }
    ensures all { IsTrue result → All (HasTime sets.now) members.now }
{
    members
        .iter()
        .all(|member| latest_of(sets, member.0).time < LAST_TIME)
}

/// The latest stamp that the sets show of the object.
#[tactic(auto, using(qu_history::proofs::Method::latest_of_none))]
fn latest_of(sets: &Sets, object: ObjectId) -> Stamp
    ensures { result ≡ latest_of (entries_of object sets.now) }
{
    sets.latest(object).unwrap_or(Stamp::opening())
}

/// These objects, each with the time of the candidate that is made there.
fn fresh_members(
    alloc: Global,
    sets: &Sets,
    members: &[(ObjectId, u64)],
) -> Result<List<(ObjectId, u64)>, NoMemory>
    requires { All (HasTime sets.now) members.now }
    ensures { IfOk result (λ fresh. fresh ≡ map (fresh_member sets.now) members.now) }
{
    let mut fresh = List::new(alloc);
    for member in members {
        fresh.push((member.0, latest_of(sets, member.0).time + 1))?;
    }
    Ok(fresh)
}

/// Waits where versions are missing upon which the mend rests.
#[tactic(auto, unfolding(crate::specs::Mending::mend_row_version))]
fn row_version(alloc: Global, parts: &[Part<'_>]) -> Result<Option<Mending>, NoMemory>
    ensures { IfOk result (λ row. row ≡ mend_row_version parts.now) }
{
    if !lacks_version(parts) {
        return Ok(None);
    }
    Ok(Some(Mending::Waits {
        missing: missing(alloc, parts)?,
    }))
}

fn lacks_version(parts: &[Part<'_>]) -> bool
    ensures { result ≡ list_any (λ part. is_some (missing_key part)) parts.now }
{
    parts.iter().any(|part| part.missing().is_some())
}

/// The versions that are missing, as keys.
#[tactic(auto, using(crate::proofs::Parts::keeping_parts))]
fn missing(alloc: Global, parts: &[Part<'_>]) -> Result<List<(ObjectId, Stamp)>, NoMemory>
    ensures { IfOk result (λ missing. missing ≡ missing_in parts.now) }
{
    let mut missing = List::new(alloc);
    for part in parts {
        if let Some(key) = part.missing() {
            missing.push(key)?;
        }
    }
    Ok(missing)
}

/// Refuses objects whose history is full.
#[tactic(auto, unfolding(crate::specs::Mending::mend_row_full))]
fn row_full(parts: &[Part<'_>]) -> Option<Mending>
    ensures { result ≡ mend_row_full parts.now }
{
    let full = first_full(parts)?;
    Some(Mending::Refuses(Refusal::HistoryFull(full.object)))
}

fn first_full<'s, 'p>(parts: &'s [Part<'p>]) -> Option<&'s Part<'p>>
    ensures { option_copied result ≡ find (λ part. has_no_room part.own) parts.now }
{
    parts.iter().find(|part| part.is_full())
}

/// Whether what would be added is not above what is held.
fn is_overtaken(part: &Part<'_>, addition: Option<Candidate>) -> bool
    ensures { result ≡ is_overtaken part.now.own addition }
{
    match addition {
        Some(candidate) => !part.own_latest().is_below(&candidate.stamp),
        None => false,
    }
}
