ghost use Rattle.std.specs.Prelude.{◌≡◌, IfOk, IsTrue};
ghost use Rattle.qu_question.specs.Named.{are_objects};
ghost use Rattle.qu_question.specs.Question.{lowest_of, entries_from, whole_sets, sets_of, are_full, are_current};

use super::Kept;
use super::kept::kept_of;
use qu_base::{Bounds, List, NoMemory, ObjectId};
use qu_class::method_at;
use qu_history::{Sealed, SetOf, Sets};
use std::alloc::Global;

/// The sets of a round upon these objects: in rounds 1, 3 and so on they are trimmed.
pub fn sets_of(
    alloc: Global,
    bounds: Bounds,
    round: u8,
    kept: &[Kept],
    objects: &[ObjectId],
) -> Result<Sets, NoMemory>
    requires { IsTrue (are_objects objects.now) }
    ensures { IfOk result (λ sets. sets ≡ sets_of bounds round kept.now objects.now) }
{
    let whole = whole_sets(alloc, bounds, kept, objects)?;
    if round % 2 == 1 {
        whole.trim(alloc, &bounds)
    } else {
        Ok(whole)
    }
}

/// Of each of the objects all that is kept of it, without what is left out.
fn whole_sets(
    alloc: Global,
    bounds: Bounds,
    kept: &[Kept],
    objects: &[ObjectId],
) -> Result<Sets, NoMemory>
    requires { IsTrue (are_objects objects.now) }
    ensures { IfOk result (λ sets. sets ≡ whole_sets bounds kept.now objects.now) }
{
    let replicas = bounds.n();
    let mut sets = List::new(alloc);
    for object in objects {
        let entries = entries_of(alloc, replicas, kept, *object)?;
        sets.push(SetOf {
            object: *object,
            entries,
        })?;
    }
    match Sets::new(alloc, sets)? {
        Some(sets) => Ok(sets),
        None => unreachable!(),
    }
}

/// Whether each object has a quorum of entries.
pub fn are_full(bounds: Bounds, sets: &Sets) -> bool
    ensures { result ≡ are_full bounds sets.now }
{
    let quorum = usize::from(bounds.q());
    sets.objects().iter().all(|set| set.entries.len() >= quorum)
}

/// Whether each of the objects is of class METHOD.
pub fn are_current(bounds: Bounds, sets: &Sets, objects: &[ObjectId]) -> bool
    ensures { result ≡ are_current bounds sets.now objects.now }
{
    objects
        .iter()
        .all(|object| method_at(sets, *object, &bounds).is_some())
}

/// The lowest of some objects, which rise.
pub fn lowest_of(objects: &[ObjectId]) -> ObjectId
    ensures { result ≡ lowest_of objects.now }
{
    match objects {
        [] => ObjectId(0),
        [first, ..] => *first,
    }
}

/// The sealed histories of an object that are kept and not left out, by rising replica.
fn entries_of(
    alloc: Global,
    replicas: u8,
    kept: &[Kept],
    object: ObjectId,
) -> Result<List<Sealed>, NoMemory>
    ensures { IfOk result (λ entries. entries ≡ entries_from object 0 replicas kept.now) }
{
    let mut entries = List::new(alloc);
    for replica in 0..replicas {
        if let Some(sealed) = kept_of(kept, object, replica) {
            entries.push(sealed.copy(alloc)?)?;
        }
    }
    Ok(entries)
}
