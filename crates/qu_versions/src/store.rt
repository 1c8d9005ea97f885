ghost use Rattle.std.specs.Prelude.{◌≡◌, ◌≤◌, ◌++◌, ◌↔◌, false, not, length, filter, find, Option, Some, IsTrue, IfOk, OnOk, OnErr};
ghost use Rattle.std.specs.Option.{option_copied, option_or};
ghost use Rattle.qu_base.specs.declared.limits.TheConstants.{OBJECT_IDS};
ghost use Rattle.qu_base.specs.declared.party.ObjectId.{ObjectId as Object};
ghost use Rattle.qu_stamp.specs.declared.stamp.Stamp.{Stamp as AStamp};
ghost use Rattle.qu_versions.specs.declared.limits.TheConstants.{MOST_VERSIONS};
ghost use Rattle.qu_versions.specs.Versions.{is_stored, is_same_key, version_at, has_version, with_version, opening_store, opening_at, KeepsVersions};

use super::{MOST_VERSIONS, Prepared, Stored};
use qu_base::{List, NoMemory, ObjectId};
use qu_objects::{KindName, ObjState, Value};
use qu_stamp::Stamp;
use std::alloc::Global;
use std::collections::LinkedList;
use std::marker::Model;

/// The versions of objects, each under its stamp. It only grows: a version that is held is never replaced.
pub struct VersionStore {
    alloc: Global,
    versions: LinkedList<Stored>,
}

/// By hand, so that a value is let go in one step wherever that is.
impl Drop for VersionStore {
    fn drop(self) {
        let VersionStore {
            alloc: _,
            versions: _,
        } = self;
    }
}

impl Model for VersionStore {
    ghost use Rattle.std.specs.Prelude.{List as Sequence};
    ghost use Rattle.qu_versions.specs.declared.stored.Stored.{Stored as AVersion};

    ghost Value = { Sequence AVersion };

    ghost view = { λ store. store.versions };
}

impl VersionStore {
    /// The versions with which objects of these kinds begin, in their order: each has its kind's fresh value,
    /// and neither rows nor links.
    #[tactic(auto, using(crate::proofs::Lookup::opened))]
    pub fn fresh(alloc: Global, kinds: &[KindName]) -> Result<VersionStore, NoMemory>
        requires { length kinds.now ≤ OBJECT_IDS }
        ensures value { IfOk result (λ store. store ≡ opening_store 0 kinds.now) }
        ensures opening { (object : Object) (stamp : AStamp)
            → IfOk result (λ store. version_at object stamp store ≡ opening_at kinds.now object stamp) }
    {
        let versions = opening(alloc, kinds)?;
        Ok(VersionStore { alloc, versions })
    }

    /// Holds a version of the object under this stamp; where there is one, that one stays. Without memory
    /// nothing changes.
    pub fn put(&mut self, object: ObjectId, stamp: Stamp, state: ObjState) -> Result<(), NoMemory>
        ensures value { OnOk result (self.new ≡ with_version object stamp state self.old) }
        ensures held { OnOk result
            (version_at object stamp self.new ≡ option_or (version_at object stamp self.old) (Some state)) }
        ensures others { (other : Object) (at : AStamp) → is_same_key object stamp other at ≡ false
            → OnOk result (version_at other at self.new ≡ version_at other at self.old) }
        ensures grows { OnOk result (KeepsVersions self.old self.new) }
        ensures err { OnErr result (self.new ≡ self.old) }
    {
        self.hold(object, stamp, state)
    }

    /// Puts the version behind the others, where none is held under its key.
    fn hold(&mut self, object: ObjectId, stamp: Stamp, state: ObjState) -> Result<(), NoMemory>
        ensures value { OnOk result (self.new ≡ with_version object stamp state self.old) }
        ensures err { OnErr result (self.new ≡ self.old) }
    {
        if self.get(object, &stamp).is_some() {
            return Ok(());
        }
        self.versions.push_back(Stored {
            object,
            stamp,
            state,
        })?;
        Ok(())
    }

    /// Whether there is a place for the versions that were prepared, these and those behind them.
    pub fn has_place(&self, prepared: &Prepared, later: &Prepared) -> bool
        ensures { IsTrue result ↔ (length ((self.now ++ prepared.now) ++ later.now) ≤ MOST_VERSIONS) }
    {
        prepared.len() + later.len() <= MOST_VERSIONS - self.versions.len()
    }

    /// Holds the versions that were prepared, which takes no memory. Where one is held under the same key already,
    /// that one is found.
    pub fn put_prepared(&mut self, prepared: Prepared)
        requires place { length (self.old ++ prepared) ≤ MOST_VERSIONS }
        ensures value { self.new ≡ self.old ++ prepared }
        ensures held { (object : Object) (at : AStamp) → version_at object at self.new
            ≡ option_or (version_at object at self.old) (version_at object at prepared) }
        ensures grows { KeepsVersions self.old self.new }
    {
        self.join(prepared)
    }

    /// Puts the versions behind the others.
    fn join(&mut self, prepared: Prepared)
        requires place { length (self.old ++ prepared) ≤ MOST_VERSIONS }
        ensures value { self.new ≡ self.old ++ prepared }
    {
        let mut versions = prepared.into_list();
        if self.versions.append(&mut versions).is_err() {
            unreachable!();
        }
    }

    /// The version of the object under this stamp, None exactly where it is not held.
    pub fn get(&self, object: ObjectId, stamp: &Stamp) -> Option<&ObjState>
        ensures { option_copied result ≡ version_at object stamp.now self.now }
    {
        version_at(&self.versions, object, stamp)
    }

    /// Those of the keys under which no version is held, in their order.
    pub fn missing(&self, keys: &[(ObjectId, Stamp)]) -> Result<List<(ObjectId, Stamp)>, NoMemory>
        ensures { IfOk result (λ missing. missing ≡ filter (λ key. not (has_version key.0 key.1 self.now)) keys.now) }
    {
        let mut missing = List::new(self.alloc);
        for key in keys {
            if self.get(key.0, &key.1).is_none() {
                missing.push(*key)?;
            }
        }
        Ok(missing)
    }
}

/// The versions with which the objects of these kinds begin, in their order.
#[tactic(auto, using(crate::proofs::Opening::opening_laws))]
fn opening(alloc: Global, kinds: &[KindName]) -> Result<LinkedList<Stored>, NoMemory>
    requires { length kinds.now ≤ OBJECT_IDS }
    ensures { IfOk result (λ versions. versions ≡ opening_store 0 kinds.now) }
{
    let mut versions = LinkedList::new(alloc);
    for (number, kind) in kinds.iter().enumerate() {
        let state = ObjState {
            value: Value::fresh(alloc, *kind)?,
            kept: List::new(alloc),
            links: List::new(alloc),
        };
        versions.push_back(Stored {
            object: ObjectId(number as u16),
            stamp: Stamp::opening(),
            state,
        })?;
    }
    Ok(versions)
}

/// The version of an object under this stamp.
#[tactic(auto, using(crate::proofs::Lookup::finds))]
fn version_at<'a>(
    versions: &'a LinkedList<Stored>,
    object: ObjectId,
    stamp: &Stamp,
) -> Option<&'a ObjState>
    ensures { option_copied result ≡ version_at object stamp.now versions.now }
{
    match first_stored(versions, object, stamp) {
        Some(held) => Some(&held.state),
        None => None,
    }
}

/// The first entry of an object under this stamp.
#[tactic(auto, unfolding(qu_stamp::specs::Stamp::same_stamp))]
fn first_stored<'a>(
    versions: &'a LinkedList<Stored>,
    object: ObjectId,
    stamp: &Stamp,
) -> Option<&'a Stored>
    ensures { option_copied result ≡ find (is_stored object stamp.now) versions.now }
{
    versions
        .iter()
        .find(|held| held.object == object && held.stamp == *stamp)
}
