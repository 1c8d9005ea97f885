ghost use Rattle.std.specs.Prelude.{◌≡◌, ◌≤◌, length, map, IfOk, IfNone};
ghost use Rattle.std.specs.Option.{option_copied};
ghost use Rattle.qu_base.specs.Bounds.{quorum};
ghost use Rattle.qu_class.specs.Class.{is_copy, class_in};
ghost use Rattle.qu_plan.specs.Linking.{linking};
ghost use Rattle.qu_verdicts.specs.declared.verdict.Verdict.TheVariants.{Mended};
ghost use Rattle.qu_mends.specs.Remedy.{course_of};
ghost use Rattle.qu_rows.specs.declared.decision.Decision.TheVariants.{Answers};
ghost use Rattle.qu_rows.specs.Rows.{shown_of, row_few, linking_of, missing_of, evidence_for, waits_for, facts_of, wanted_version, part_of, mending_on, decision_by};

use super::Rows;
use crate::asked::Asked;
use crate::decision::{Decision, refuse};
use qu_base::{Bounds, List, NoMemory, ObjectId};
use qu_class::{Class, classify};
use qu_frames::{Refusal, Verdict};
use qu_history::Sets;
use qu_kept::Remedy;
use qu_mends::{Accepted, Mend, Mending, Part};
use qu_objects::ObjState;
use qu_plan::{Fact, evidence};
use qu_stamp::Stamp;
use std::alloc::Global;

// The rows of a request to mend an object.
impl<'a> Rows<'a> {
    /// Refuses to mend an object of which the sets show fewer entries than a quorum.
    #[tactic(auto, unfolding(crate::specs::Rows::row_few))]
    pub fn row_few(&self, asked: &Asked, target: ObjectId) -> Option<Decision>
        ensures enough { IfNone result (quorum self.now.keys.bounds ≤ length (shown_of asked.now target)) }
        ensures value { result ≡ row_few self.now asked.now target }
    {
        if asked.sets.entries(target) < self.keys.bounds().q() {
            Some(refuse(self.alloc, Refusal::Thin(target)))
        } else {
            None
        }
    }

    /// The versions that decide how the target is mended.
    pub fn evidence(
        &self,
        asked: &Asked,
        target: ObjectId,
    ) -> Result<List<(ObjectId, Stamp)>, NoMemory>
        ensures { IfOk result (λ keys. keys ≡ evidence_for self.now asked.now target) }
    {
        let bounds = self.keys.bounds();
        if is_copied(asked.sets, target, &bounds) {
            evidence(self.alloc, asked.sets, target, &bounds)
        } else {
            Ok(List::new(self.alloc))
        }
    }

    /// Waits for those that are missing.
    pub fn row_evidence(&self, keys: &[(ObjectId, Stamp)]) -> Result<Option<Decision>, NoMemory>
        ensures { IfOk result (λ row. row ≡ waits_for (missing_of self.now keys.now)) }
    {
        let missing = self.missing(keys)?;
        Ok(waits_for(missing))
    }

    /// What it makes of a request to mend an object that has a quorum of entries, where this is the evidence.
    pub fn mend(
        &self,
        asked: &Asked,
        target: ObjectId,
        keys: &[(ObjectId, Stamp)],
    ) -> Result<Decision, NoMemory>
        requires enough { quorum self.now.keys.bounds ≤ length (shown_of asked.now target) }
        requires evidence { keys.now ≡ evidence_for self.now asked.now target }
        ensures { IfOk result (λ decision. decision ≡ decision_by target (mending_on self.now asked.now target)) }
    {
        let facts = self.facts(keys)?;
        let mending = self.mending(asked, target, facts.as_slice())?;
        Ok(decision_by(self.alloc, target, mending))
    }

    /// What the versions under these keys tell of other objects, where the replica has them.
    #[tactic(auto, using(crate::proofs::Keeping::keeping))]
    fn facts(&self, keys: &[(ObjectId, Stamp)]) -> Result<List<Fact>, NoMemory>
        ensures { IfOk result (λ facts. facts ≡ facts_of self.now keys.now) }
    {
        let mut facts = List::new(self.alloc);
        for key in keys {
            if let Some(version) = self.version(key.0, &key.1) {
                facts.push(Fact {
                    object: key.0,
                    stamp: key.1,
                    links: version.links.copy(self.alloc)?,
                })?;
            }
        }
        Ok(facts)
    }

    /// What it makes of a request to mend an object that has a quorum of entries.
    fn mending(&self, asked: &Asked, target: ObjectId, facts: &[Fact]) -> Result<Mending, NoMemory>
        requires enough { quorum self.now.keys.bounds ≤ length (shown_of asked.now target) }
        requires facts { course_of self.now.keys.bounds asked.now.sets (linking facts.now) target
            ≡ course_of self.now.keys.bounds asked.now.sets (linking_of self.now) target }
        ensures { IfOk result (λ made. made ≡ mending_on self.now asked.now target) }
    {
        let mend = Mend::of(
            self.alloc,
            asked.sets,
            asked.set,
            target,
            asked.client,
            &self.keys.bounds(),
            facts,
        )?;
        let parts = self.parts(asked, mend.remedies.as_slice())?;
        mend.decide(self.alloc, parts.as_slice())
    }

    /// The objects that are mended so, each with what the replica has of it.
    fn parts(
        &self,
        asked: &Asked,
        remedies: &[(ObjectId, Remedy)],
    ) -> Result<List<Part<'a>>, NoMemory>
        ensures { IfOk result (λ parts. parts ≡ map (part_of self.now asked.now) remedies.now) }
    {
        let mut parts = List::new(self.alloc);
        for mended in remedies {
            parts.push(self.part(asked, mended.0, mended.1))?;
        }
        Ok(parts)
    }

    #[tactic(auto, using(qu_history::proofs::Method::latest_of_none))]
    fn part(&self, asked: &Asked, object: ObjectId, remedy: Remedy) -> Part<'a>
        ensures { result ≡ part_of self.now asked.now (object, remedy) }
    {
        Part {
            object,
            latest: asked.sets.latest(object).unwrap_or(Stamp::opening()),
            remedy,
            own: self.history(object),
            version: self.wanted_version(object, &remedy),
        }
    }

    /// The version that the remedy wants, where the replica has it.
    fn wanted_version(&self, object: ObjectId, remedy: &Remedy) -> Option<&'a ObjState>
        ensures { option_copied result ≡ wanted_version self.now object remedy.now }
    {
        match remedy.wanted() {
            Some(stamp) => self.version(object, &stamp),
            None => None,
        }
    }
}

/// Whether the object is of class COPY.
fn is_copied(sets: &Sets, object: ObjectId, bounds: &Bounds) -> bool
    ensures { result ≡ is_copy (class_in bounds.now sets.now object) }
{
    match classify(sets, object, bounds) {
        Class::Copy => true,
        Class::Method(_)
        | Class::InlineMethod(_)
        | Class::InlineBarrier(_)
        | Class::Barrier { .. }
        | Class::Needs(_) => false,
    }
}

/// The decision to wait for these versions, if there are any.
fn waits_for(missing: List<(ObjectId, Stamp)>) -> Option<Decision>
    ensures { result ≡ waits_for missing }
{
    if missing.is_empty() {
        None
    } else {
        Some(Decision::Waits { missing })
    }
}

/// The decision of a replica that makes this of a request to mend the target.
fn decision_by(alloc: Global, target: ObjectId, mending: Mending) -> Decision
    ensures { result ≡ decision_by target mending }
{
    match mending {
        Mending::Mends { stamp, accepted } => mended(target, stamp, accepted),
        Mending::Holds { stamp } => mended(target, stamp, List::new(alloc)),
        Mending::Refuses(why) => refuse(alloc, why),
        Mending::Waits { missing } => Decision::Waits { missing },
    }
}

/// The decision to accept these candidates, and to tell the stamp of that of the target.
fn mended(target: ObjectId, stamp: Stamp, accepted: List<Accepted>) -> Decision
    ensures { result ≡ Answers (Mended target stamp) accepted }
{
    Decision::Answers {
        verdict: Verdict::Mended(target, stamp),
        accepted,
    }
}
