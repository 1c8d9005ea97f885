ghost use Rattle.std.specs.Prelude.{◌≡◌, ◌≤◌, ◌↔◌, [], length, true, false, IsTrue, IsNone, IfSome, IfOk};
ghost use Rattle.qu_history.specs.Sets.{is_entry, are_entries, is_set, are_sets, histories, entries_of, order_of, latest_of};

use super::{History, OBJECTS_LIMIT, Sealed, entries};
use qu_base::{Bounds, List, NoMemory, OBJECT_IDS, ObjectId, REPLICA_IDS, Shared};
use qu_stamp::{Candidate, Stamp};
use std::alloc::Global;
use std::marker::Model;

/// The sealed histories of one object that some replicas showed, at most one of each, by rising replica.
#[derive(Drop)]
pub struct SetOf {
    pub object: ObjectId,
    pub entries: List<Sealed>,
}

/// One to eight objects in rising order, each with the histories that some replicas showed of it. Copies share them.
pub struct Sets {
    objects: Shared<List<SetOf>>,
}

/// By hand, so that a value is let go in one step wherever that is.
impl Drop for Sets {
    fn drop(self) {
        let Sets { objects: _ } = self;
    }
}

impl Model for Sets {
    ghost use Rattle.std.specs.Prelude.{List, IsTrue};
    ghost use Rattle.qu_history.specs.declared.sets.SetOf.{SetOf};
    ghost use Rattle.qu_history.specs.Sets.{are_sets};

    ghost Value = { List SetOf };

    ghost view = { λ sets. sets.objects };

    ghost invariant = { λ sets. IsTrue (are_sets sets.objects) };
}

impl Sets {
    /// The sets of these objects, if their objects and replicas rise as they should.
    pub fn new(alloc: Global, objects: List<SetOf>) -> Result<Option<Sets>, NoMemory>
        ensures refused { IfOk result (λ found. IsNone found ↔ are_sets objects ≡ false) }
        ensures value { IfOk result (λ found. IfSome found (λ sets. sets ≡ objects)) }
    {
        if !are_sets(objects.as_slice()) {
            return Ok(None);
        }
        Ok(Some(Sets::of(alloc, objects)?))
    }

    /// The sets of objects that are as they should be.
    pub(crate) fn of(alloc: Global, objects: List<SetOf>) -> Result<Sets, NoMemory>
        requires { IsTrue (are_sets objects) }
        ensures { IfOk result (λ sets. sets ≡ objects) }
    {
        Ok(Sets {
            objects: Shared::new(alloc, objects)?,
        })
    }

    /// The objects, in rising order.
    pub fn objects(&self) -> &List<SetOf>
        ensures value { result.now ≡ self.now }
        ensures rising { IsTrue (are_sets result.now) }
    {
        self.objects.get()
    }

    /// Equal sets, which share the objects.
    pub fn copy(&self) -> Result<Sets, NoMemory>
        ensures { IfOk result (λ sets. sets ≡ self.now) }
    {
        Ok(Sets {
            objects: self.objects.share()?,
        })
    }

    /// The entries of an object, by rising replica; none where the object is not in the sets.
    #[tactic(auto, using(crate::proofs::SetLaws::few_found))]
    pub fn find(&self, object: ObjectId) -> &[Sealed]
        ensures value { histories result.now ≡ entries_of object self.now }
        ensures few { length result.now ≤ REPLICA_IDS }
    {
        entries_in(self.objects().as_slice(), object)
    }

    /// How many histories the object has, 0 where it is not in the sets.
    pub fn entries(&self, object: ObjectId) -> u8
        ensures { result ≡ length (entries_of object self.now) }
    {
        self.find(object).len() as u8
    }

    /// How many of the object's histories hold the candidate.
    pub fn count(&self, object: ObjectId, candidate: &Candidate) -> u8
        ensures { result ≡ order_of candidate.now (entries_of object self.now) }
    {
        entries::order_of(self.find(object), candidate) as u8
    }

    /// The greatest stamp in the object's histories; `None` where it has none.
    pub fn latest(&self, object: ObjectId) -> Option<Stamp>
        ensures none { IsNone result ↔ entries_of object self.now ≡ [] }
        ensures value { IfSome result (λ stamp. stamp ≡ latest_of (entries_of object self.now)) }
    {
        let entries = self.find(object);
        if entries.is_empty() {
            return None;
        }
        Some(entries::latest_of(entries))
    }
}

/// The entries of an object in these sets.
fn entries_in(objects: &[SetOf], object: ObjectId) -> &[Sealed]
    ensures { histories result.now ≡ entries_of object objects.now }
{
    for set in objects {
        if set.object == object {
            return set.entries.as_slice();
        }
    }
    &[]
}

/// Whether these are one to eight objects as `Sets` wants them.
fn are_sets(objects: &[SetOf]) -> bool
    ensures { result ≡ are_sets objects.now }
{
    if objects.is_empty() || objects.len() > OBJECTS_LIMIT {
        return false;
    }
    let mut least = 0;
    for set in objects {
        if !is_set(least, set) {
            return false;
        }
        least = set.object.0 + 1;
    }
    true
}

/// Whether this is an object from this number on, with its entries.
fn is_set(least: u16, set: &SetOf) -> bool
    ensures { result ≡ is_set least set.now }
{
    least <= set.object.0
        && set.object.0 < OBJECT_IDS
        && are_entries(set.object, set.entries.as_slice())
}

/// Whether these are histories of the object by different replicas, in rising order.
fn are_entries(object: ObjectId, entries: &[Sealed]) -> bool
    ensures { result ≡ are_entries object 0 (histories entries.now) }
{
    let mut least = 0;
    for entry in entries {
        if !is_entry(object, least, &entry.history) {
            return false;
        }
        least = entry.history.replica().0 + 1;
    }
    true
}

/// Whether this is a history of the object by a replica from this number on.
fn is_entry(object: ObjectId, least: u8, entry: &History) -> bool
    ensures { result ≡ is_entry object least entry.now }
{
    let replica = entry.replica().0;
    entry.object() == object && least <= replica && replica < REPLICA_IDS
}
