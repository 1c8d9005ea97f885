ghost use Rattle.std.specs.Prelude.{◌≡◌, ◌<◌, find, is_none, length, nat_le, IfOk, IfNone};
ghost use Rattle.std.specs.List.{All, list_any};
ghost use Rattle.std.specs.Option.{option_copied};
ghost use Rattle.qu_stamp.specs.declared.limits.TheConstants.{LAST_TIME};
ghost use Rattle.qu_stamp.specs.Stamp.{is_below};
ghost use Rattle.qu_rows.specs.State.{own_candidates, own_latest};
ghost use Rattle.qu_mends.specs.Table.{has_no_room};
ghost use Rattle.qu_rows.specs.Rows.{class_code, unknown_in, unknown_refused, standing_in, repeated, version_seen, base_versions, row_current, row_method, row_version, row_kept, row_time, row_full, row_told};

use super::Rows;
use super::bases::base_keys;
use crate::asked::Asked;
use crate::decision::{Decision, refuse};
use qu_base::{List, NoMemory, ObjectId};
use qu_class::Class;
use qu_frames::{ClassCode, Refusal, Verdict};
use qu_history::Sets;
use qu_kept::{Standing, standing_of, tell_all};
use qu_mends::{Seen, has_no_room};
use qu_objects::{Act, ObjState, Query};
use qu_stamp::LAST_TIME;
use std::alloc::Global;

// The rows of an act and of a query, in the order in which they are tried.
impl<'a> Rows<'a> {
    /// Refuses sets with an object that the replica does not have.
    pub fn row_unknown(&self, sets: &Sets) -> Option<Decision>
        ensures { result ≡ unknown_refused (unknown_in self.now sets.now) }
    {
        let known = self.histories.len();
        let set = sets
            .objects()
            .iter()
            .find(|set| known <= usize::from(set.object.0))?;
        Some(refuse(self.alloc, Refusal::UnknownObject(set.object)))
    }

    /// Refuses sets that do not show the replica's own latest candidate of each object.
    #[tactic(auto, unfolding(crate::specs::Rows::row_current))]
    pub fn row_current(&self, seen: &[Seen]) -> Option<Decision>
        ensures { result ≡ row_current self.now seen.now }
    {
        let late = self.first_late(seen)?;
        let own = self.own_latest(late.object);
        Some(refuse(self.alloc, Refusal::NotCurrent(late.object, own)))
    }

    /// The first of which the replica has a later candidate.
    fn first_late<'s>(&self, seen: &'s [Seen]) -> Option<&'s Seen>
        ensures { option_copied result ≡ find (λ one. is_below one.latest (own_latest self.now one.object)) seen.now }
    {
        seen.iter()
            .find(|one| one.latest.is_below(&self.own_latest(one.object)))
    }

    /// Waits for the versions that are missing upon which the operation rests.
    #[tactic(auto, using(crate::proofs::Shown::versions_whole), unfolding(crate::specs::Rows::row_version))]
    pub fn row_version(&self, seen: &[Seen]) -> Result<Option<Decision>, NoMemory>
        ensures versions { IfOk result (λ row. IfNone row
            (length (base_versions self.now seen.now) ≡ length seen.now)) }
        ensures value { IfOk result (λ row. row ≡ row_version self.now seen.now) }
    {
        if !self.lacks_version(seen) {
            return Ok(None);
        }
        let bases = base_keys(self.alloc, seen)?;
        Ok(Some(Decision::Waits {
            missing: self.missing(bases.as_slice())?,
        }))
    }

    /// Whether the version is missing upon which an operation on one of these rests.
    fn lacks_version(&self, seen: &[Seen]) -> bool
        ensures { result ≡ list_any (λ one. is_none (version_seen self.now one)) seen.now }
    {
        seen.iter().any(|one| self.version_seen(one).is_none())
    }

    /// The version upon which an operation on the object rests, where the replica has it.
    pub(super) fn version_seen(&self, one: &Seen) -> Option<&'a ObjState>
        ensures { option_copied result ≡ version_seen self.now one.now }
    {
        match &one.method {
            Some(base) => self.version(one.object, &base.stamp),
            None => None,
        }
    }

    /// Refuses objects whose history is full.
    #[tactic(auto, unfolding(crate::specs::Rows::row_full))]
    pub fn row_full(&self, seen: &[Seen]) -> Option<Decision>
        ensures { result ≡ row_full self.now seen.now }
    {
        let full = self.first_full(seen)?;
        Some(refuse(self.alloc, Refusal::HistoryFull(full.object)))
    }

    /// The first whose history has no room.
    fn first_full<'s>(&self, seen: &'s [Seen]) -> Option<&'s Seen>
        ensures { option_copied result ≡ find (λ one. has_no_room (own_candidates self.now one.object)) seen.now }
    {
        seen.iter().find(|one| self.is_full(one.object))
    }

    /// Whether the history of the object has no room.
    fn is_full(&self, object: ObjectId) -> bool
        ensures { result ≡ has_no_room (own_candidates self.now object) }
    {
        match self.history(object) {
            Some(own) => has_no_room(own),
            None => false,
        }
    }

    /// Answers the query from the versions on which it rests.
    #[tactic(auto, unfolding(crate::specs::Rows::row_told))]
    pub fn row_told(&self, query: &Query, seen: &[Seen]) -> Result<Decision, NoMemory>
        requires one_each { length seen.now ≡ length query.now }
        requires versions { length (base_versions self.now seen.now) ≡ length seen.now }
        ensures { IfOk result (λ decision. row_told query.now seen.now (base_versions self.now seen.now)
            ≡ Some decision) }
    {
        let stamps = base_keys(self.alloc, seen)?;
        let values = self.base_values(seen)?;
        let answer = tell_all(self.alloc, values.as_slice(), query)?;
        Ok(Decision::Answers {
            verdict: Verdict::Told { stamps, answer },
            accepted: List::new(self.alloc),
        })
    }
}

/// Refuses objects upon which no operation may rest.
#[tactic(auto, unfolding(crate::specs::Rows::row_method))]
pub fn row_method(alloc: Global, seen: &[Seen]) -> Option<Decision>
    ensures { result ≡ row_method seen.now }
{
    let other = first_other(seen)?;
    let class = class_code(&other.class).unwrap_or(ClassCode::Barrier);
    Some(refuse(alloc, Refusal::NotMethod(other.object, class)))
}

/// The first of another class than METHOD.
fn first_other(seen: &[Seen]) -> Option<&Seen>
    ensures { option_copied result ≡ find (λ one. is_none one.method) seen.now }
{
    seen.iter().find(|one| one.method.is_none())
}

/// Tells the answer of an act that was performed before, and refuses one whose number is spent, by the versions on
/// which it rests.
#[tactic(auto, unfolding(crate::specs::Rows::row_kept))]
pub fn row_kept(
    alloc: Global,
    asked: &Asked,
    act: &Act,
    before: &[ObjState],
) -> Result<Option<Decision>, NoMemory>
    ensures { IfOk result (λ row. row ≡ row_kept asked.now act.now before.now) }
{
    let standing = standing_in(alloc, asked, act, before)?;
    Ok(repeated(alloc, standing))
}

/// Refuses objects whose time is spent.
#[tactic(auto, unfolding(crate::specs::Rows::row_time))]
pub fn row_time(alloc: Global, seen: &[Seen]) -> Option<Decision>
    ensures in_time { IfNone result (All (λ one. one.latest.time < LAST_TIME) seen.now) }
    ensures value { result ≡ row_time seen.now }
{
    let spent = first_spent(seen)?;
    Some(refuse(alloc, Refusal::TimeSpent(spent.object)))
}

/// The first whose time is spent.
#[tactic(auto, using(crate::proofs::Shown::all_in_time))]
pub(super) fn first_spent(seen: &[Seen]) -> Option<&Seen>
    ensures in_time { IfNone result (All (λ one. one.latest.time < LAST_TIME) seen.now) }
    ensures value { option_copied result ≡ find (λ one. nat_le LAST_TIME one.latest.time) seen.now }
{
    seen.iter().find(|one| LAST_TIME <= one.latest.time)
}

/// How the act stands to what versions of its objects keep of its client.
pub(super) fn standing_in(
    alloc: Global,
    asked: &Asked,
    act: &Act,
    versions: &[ObjState],
) -> Result<Standing, NoMemory>
    ensures { IfOk result (λ standing. standing ≡ standing_in asked.now act.now versions.now) }
{
    match &asked.act {
        Some(digest) => standing_of(alloc, versions, act, asked.client, asked.number, digest),
        None => Ok(Standing::Fresh),
    }
}

/// The class that a refusal carries, none where it is METHOD.
fn class_code(class: &Class) -> Option<ClassCode>
    ensures { result ≡ class_code class.now }
{
    match class {
        Class::Method(_) => None,
        Class::InlineMethod(_) => Some(ClassCode::InlineMethod),
        Class::Copy => Some(ClassCode::Copy),
        Class::InlineBarrier(_) => Some(ClassCode::InlineBarrier),
        Class::Barrier { .. } => Some(ClassCode::Barrier),
        Class::Needs(_) => Some(ClassCode::Needs),
    }
}

/// The decision upon an act that stands so.
fn repeated(alloc: Global, standing: Standing) -> Option<Decision>
    ensures { result ≡ repeated standing }
{
    match standing {
        Standing::Fresh => None,
        Standing::Already(answer) => Some(Decision::Answers {
            verdict: Verdict::Already(answer),
            accepted: List::new(alloc),
        }),
        Standing::Spent { object, number } => {
            Some(refuse(alloc, Refusal::Spent(object, number)))
        }
    }
}
