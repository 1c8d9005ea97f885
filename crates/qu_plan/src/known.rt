//! What a plan is looked up in.
ghost use Rattle.std.specs.Prelude.{◌≡◌, ◌==◌, IfOk, find};
ghost use Rattle.std.specs.Option.{option_copied};
ghost use Rattle.qu_history.specs.Sets.{entries_of, method_at};
ghost use Rattle.qu_plan.specs.Knowledge.{Version, versions_of};
ghost use Rattle.qu_plan.specs.Linking.{linking};

use super::fact::{Fact, link_of};
use qu_base::{Bounds, List, NoMemory, ObjectId};
use qu_class::method_at;
use qu_history::Sets;
use qu_stamp::{Candidate, Stamp};
use std::alloc::Global;
use std::marker::Model;

/// The sets of a request and what is told of versions, with the version of class METHOD of each object of the sets,
/// each of which is found once.
#[derive(Drop)]
pub(super) struct Known<'k> {
    sets: &'k Sets,
    bounds: &'k Bounds,
    facts: &'k [Fact],
    versions: List<(ObjectId, Option<Candidate>)>,
}

impl<'k> Model for Known<'k> {
    ghost use Rattle.std.specs.Prelude.{◌≡◌};
    ghost use Rattle.qu_plan.specs.Knowledge.{Knowledge, versions_of};

    ghost Value = { Knowledge };

    ghost view = { λ known. record {
      bounds = known.bounds.now;
      sets = known.sets.now;
      facts = known.facts.now;
    } };

    ghost invariant = { λ known. known.versions ≡ versions_of known.bounds.now known.sets.now };
}

impl<'k> Known<'k> {
    /// What these sets and facts tell.
    pub fn new(
        alloc: Global,
        sets: &'k Sets,
        bounds: &'k Bounds,
        facts: &'k [Fact],
    ) -> Result<Known<'k>, NoMemory>
        ensures { IfOk result (λ known. known
            ≡ record { bounds = bounds.now; sets = sets.now; facts = facts.now }) }
    {
        Ok(Known {
            sets,
            bounds,
            facts,
            versions: versions_of(alloc, sets, bounds)?,
        })
    }

    /// The sets of the request.
    pub fn sets(&self) -> &'k Sets
        ensures { result.now ≡ self.now.sets }
    {
        self.sets
    }

    /// The bounds of the service.
    pub fn bounds(&self) -> &'k Bounds
        ensures { result.now ≡ self.now.bounds }
    {
        self.bounds
    }

    /// The version of class METHOD of an object.
    #[tactic(auto, using(crate::proofs::Versions::version_nowhere))]
    pub fn version(&self, object: ObjectId) -> Option<Candidate>
        ensures { result ≡ method_at self.now.bounds (entries_of object self.now.sets) }
    {
        match version_in(self.versions.as_slice(), object) {
            Some(found) => found.1,
            None => None,
        }
    }

    /// The link to another object that the version of this one under this stamp has, as the facts tell.
    pub fn link(&self, object: ObjectId, stamp: &Stamp, other: ObjectId) -> Option<Stamp>
        ensures { result ≡ linking self.now.facts object stamp.now other }
    {
        link_of(self.facts, object, stamp, other)
    }
}

#[tactic(auto, unfolding(crate::specs::Knowledge::versions_of))]
fn versions_of(
    alloc: Global,
    sets: &Sets,
    bounds: &Bounds,
) -> Result<List<(ObjectId, Option<Candidate>)>, NoMemory>
    ensures { IfOk result (λ versions. versions ≡ versions_of bounds.now sets.now) }
{
    let shown = sets.objects().as_slice();
    let mut versions = List::new(alloc);
    for set in shown {
        versions.push((set.object, method_at(sets, set.object, bounds)))?;
    }
    Ok(versions)
}

fn version_in(
    versions: &[(ObjectId, Option<Candidate>)],
    object: ObjectId,
) -> Option<&(ObjectId, Option<Candidate>)>
    ensures { option_copied result ≡ find (λ (version : Version). (version.0).0 == object.0) versions.now }
{
    versions.iter().find(|version| version.0 == object)
}
