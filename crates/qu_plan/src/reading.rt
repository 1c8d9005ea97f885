ghost use Rattle.std.specs.Prelude.{◌≡◌, IfOk};
ghost use Rattle.std.specs.List.{list_any};
ghost use Rattle.qu_plan.specs.Copying.{plan_of};
ghost use Rattle.qu_plan.specs.Evidence.{if_seen, seen_for, is_read, read_key, evidence_of, AreAlike};
ghost use Rattle.qu_plan.specs.Linking.{Linking};
ghost use Rattle.qu_plan.specs.Beside.{reads};

use crate::beside::{is_seen, reads};
use qu_base::{Bounds, List, NoMemory, ObjectId};
use qu_class::method_at;
use qu_history::Sets;
use qu_stamp::Stamp;
use std::alloc::Global;

/// The versions on which the plan of a copy rests, as object and stamp, by rising object: those of class METHOD of the
/// objects on which something was accepted together with what may be copied. Whatever else is known, the plan is the
/// same.
pub fn evidence(
    alloc: Global,
    sets: &Sets,
    target: ObjectId,
    bounds: &Bounds,
) -> Result<List<(ObjectId, Stamp)>, NoMemory>
    ensures value { IfOk result (λ keys. keys ≡ evidence_of bounds.now sets.now target) }
    ensures enough { IfOk result (λ keys. (first second : Linking) → AreAlike first second keys
        → plan_of bounds.now sets.now first target ≡ plan_of bounds.now sets.now second target) }
{
    read_keys(alloc, sets, target, bounds)
}

#[tactic(auto, unfolding(crate::specs::Evidence::evidence_of), using(crate::proofs::PlanEvidence::keeping_keys))]
fn read_keys(
    alloc: Global,
    sets: &Sets,
    target: ObjectId,
    bounds: &Bounds,
) -> Result<List<(ObjectId, Stamp)>, NoMemory>
    ensures { IfOk result (λ keys. keys ≡ evidence_of bounds.now sets.now target) }
{
    let seen = seen_for(alloc, sets, target, bounds)?;
    let shown = sets.objects().as_slice();
    let mut keys = List::new(alloc);
    for set in shown {
        if let Some(key) = read_key(sets, target, seen.as_slice(), set.object, bounds) {
            keys.push(key)?;
        }
    }
    Ok(keys)
}

/// The objects on which what is chosen decides the plan of the target.
#[tactic(auto, unfolding(crate::specs::Evidence::seen_for), using(crate::proofs::PlanEvidence::keeping_keys))]
fn seen_for(
    alloc: Global,
    sets: &Sets,
    target: ObjectId,
    bounds: &Bounds,
) -> Result<List<ObjectId>, NoMemory>
    ensures { IfOk result (λ seen. seen ≡ seen_for bounds.now sets.now target) }
{
    let shown = sets.objects().as_slice();
    let mut seen = List::new(alloc);
    for set in shown {
        if let Some(object) = if_seen(sets, target, set.object, bounds) {
            seen.push(object)?;
        }
    }
    Ok(seen)
}

fn if_seen(sets: &Sets, target: ObjectId, over: ObjectId, bounds: &Bounds) -> Option<ObjectId>
    ensures { result ≡ if_seen bounds.now sets.now target over }
{
    if is_seen(sets, target, over, bounds) {
        Some(over)
    } else {
        None
    }
}

/// The version of class METHOD of the object, if the plan of the target reads it.
fn read_key(
    sets: &Sets,
    target: ObjectId,
    seen: &[ObjectId],
    object: ObjectId,
    bounds: &Bounds,
) -> Option<(ObjectId, Stamp)>
    requires { seen.now ≡ seen_for bounds.now sets.now target }
    ensures { result ≡ read_key bounds.now sets.now target object }
{
    if !is_read(sets, target, seen, object, bounds) {
        return None;
    }
    let version = method_at(sets, object, bounds)?;
    Some((object, version.stamp))
}

#[tactic(auto, unfolding(crate::specs::Evidence::is_read))]
fn is_read(
    sets: &Sets,
    target: ObjectId,
    seen: &[ObjectId],
    object: ObjectId,
    bounds: &Bounds,
) -> bool
    requires { seen.now ≡ seen_for bounds.now sets.now target }
    ensures { result ≡ is_read bounds.now sets.now target object }
{
    any_reads(sets, seen, object, bounds)
}

fn any_reads(sets: &Sets, seen: &[ObjectId], object: ObjectId, bounds: &Bounds) -> bool
    ensures { result ≡ list_any (λ over. reads bounds.now sets.now over object) seen.now }
{
    seen.iter().any(|over| reads(sets, *over, object, bounds))
}
