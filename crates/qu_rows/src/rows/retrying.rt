ghost use Rattle.std.specs.Prelude.{◌≡◌, ◌<◌, if◌then◌else◌, IfOk, IsSome, IfSome, Some, None, IsTrue, ◌↔◌};
ghost use Rattle.std.specs.List.{list_all};
ghost use Rattle.qu_stamp.specs.declared.limits.TheConstants.{LAST_TIME};
ghost use Rattle.qu_rows.specs.Rows.{AreOperated, group_seen, fresh_keys, fresh_candidate, is_held, standing_in, done_again, row_retry};

use super::Rows;
use super::acting::{first_spent, standing_in};
use super::making::{fresh_candidate, fresh_group};
use crate::asked::Asked;
use crate::decision::Decision;
use qu_base::{List, NoMemory, ObjectId};
use qu_frames::Verdict;
use qu_kept::Standing;
use qu_mends::Seen;
use qu_objects::{Act, ObjState};
use qu_stamp::{Candidate, Group, Stamp};
use std::alloc::Global;

// The row of an act that was performed before under these very stamps.
impl<'a> Rows<'a> {
    /// Tells the kept answer where the replica holds all candidates of the act already.
    #[tactic(auto, unfolding(crate::specs::Rows::row_retry))]
    pub fn row_retry(
        &self,
        asked: &Asked,
        act: &Act,
        seen: &[Seen],
    ) -> Result<Option<Decision>, NoMemory>
        requires { AreOperated seen.now }
        ensures { IfOk result (λ row. row ≡ row_retry self.now asked.now act.now seen.now) }
    {
        let held = self.held_keys(asked, seen)?;
        match held {
            Some(stamps) => {
                let versions = self.versions_under(stamps.as_slice())?;
                again(self.alloc, asked, act, stamps, versions.as_slice())
            }
            None => Ok(None),
        }
    }

    /// The stamps of the candidates that the act makes, where the replica holds them all. It holds none with a time
    /// after the last.
    #[tactic(auto, using(crate::proofs::Keeping::keeping))]
    fn held_keys(
        &self,
        asked: &Asked,
        seen: &[Seen],
    ) -> Result<Option<List<(ObjectId, Stamp)>>, NoMemory>
        requires { AreOperated seen.now }
        ensures { IfOk result (λ held. held
            ≡ if list_all (is_held self.now asked.now (group_seen asked.now seen.now)) seen.now
            then Some (fresh_keys asked.now seen.now) else None) }
    {
        let alloc = self.alloc;
        if first_spent(seen).is_some() {
            return Ok(None);
        }
        let group = fresh_group(alloc, asked, seen)?;
        let mut keys = List::new(alloc);
        for one in seen {
            match self.held_fresh(asked, &group, one) {
                Some(fresh) => keys.push((one.object, fresh.stamp))?,
                None => return Ok(None),
            }
        }
        Ok(Some(keys))
    }

    /// The candidate that the act makes on an object with this group, where the replica holds it.
    #[tactic(auto, unfolding(crate::specs::Rows::is_held))]
    fn held_fresh(&self, asked: &Asked, group: &Group, one: &Seen) -> Option<Candidate>
        requires { one.now.latest.time < LAST_TIME }
        ensures held { IsSome result ↔ IsTrue (is_held self.now asked.now group.now one.now) }
        ensures value { IfSome result (λ fresh. fresh_candidate asked.now group.now one.now ≡ Some fresh) }
    {
        let history = self.history(one.object)?;
        let fresh = fresh_candidate(asked, group, one)?;
        if history.holds(&fresh) {
            Some(fresh)
        } else {
            None
        }
    }
}

/// The decision upon a retry, by the stamps of its candidates and what their versions keep.
fn again(
    alloc: Global,
    asked: &Asked,
    act: &Act,
    stamps: List<(ObjectId, Stamp)>,
    versions: &[ObjState],
) -> Result<Option<Decision>, NoMemory>
    ensures { IfOk result (λ row. row
        ≡ done_again stamps (standing_in asked.now act.now versions.now)) }
{
    let standing = standing_in(alloc, asked, act, versions)?;
    Ok(done_again(alloc, stamps, standing))
}

/// The decision upon a retry that stands so.
fn done_again(
    alloc: Global,
    stamps: List<(ObjectId, Stamp)>,
    standing: Standing,
) -> Option<Decision>
    ensures { result ≡ done_again stamps standing }
{
    match standing {
        Standing::Already(answer) => Some(Decision::Answers {
            verdict: Verdict::Done { stamps, answer },
            accepted: List::new(alloc),
        }),
        Standing::Fresh | Standing::Spent { .. } => None,
    }
}
