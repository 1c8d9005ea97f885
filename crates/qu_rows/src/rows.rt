ghost use Rattle.std.specs.Prelude.{◌≡◌, [], ◌++◌, length, slice_get, IfOk, IsTrue};
ghost use Rattle.std.specs.Option.{option_copied};
ghost use Rattle.qu_history.specs.History.{latest};
ghost use Rattle.qu_rows.specs.State.{AreHistories, are_own, own_latest, one_more};
ghost use Rattle.qu_versions.specs.Versions.{version_at};
ghost use Rattle.qu_rows.specs.Rows.{seen_each, objects_of};

mod acting;
mod bases;
mod making;
mod mending;
mod retrying;

use crate::asked::Asked;
use crate::versions::version_of;
pub use acting::{row_kept, row_method, row_time};
pub use making::row_done;
use qu_base::{Bounds, List, NoMemory, ObjectId, ReplicaId};
use qu_history::History;
use qu_mends::Seen;
use qu_objects::ObjState;
use qu_seal::KeyRing;
use qu_stamp::Stamp;
use qu_versions::{Stored, VersionStore};
use std::alloc::Global;
use std::marker::Model;

/// What a replica looks at when it decides upon a request: its histories, its versions, and at most one version more,
/// which stands behind the others and is not stored yet.
pub struct Rows<'a> {
    alloc: Global,
    me: ReplicaId,
    keys: &'a KeyRing,
    histories: &'a [History],
    versions: &'a VersionStore,
    more: Option<&'a Stored>,
}

/// By hand, so that a value is let go in one step wherever that is.
impl<'a> Drop for Rows<'a> {
    fn drop(self) {
        let Rows {
            alloc: _,
            me: _,
            keys: _,
            histories: _,
            versions: _,
            more: _,
        } = self;
    }
}

impl<'a> Model for Rows<'a> {
    ghost use Rattle.std.specs.Prelude.{IsTrue, [], ◌++◌};
    ghost use Rattle.std.specs.Option.{option_copied};
    ghost use Rattle.qu_rows.specs.State.{ReplicaState, are_own, one_more};

    ghost Value = { ReplicaState };

    ghost view = { λ rows. record {
      me = rows.me;
      keys = rows.keys.now;
      kinds = [];
      histories = rows.histories.now;
      versions = rows.versions.now ++ one_more (option_copied rows.more);
      waiting = [];
      fetching = [];
    } };

    ghost invariant = { λ rows. IsTrue (are_own rows.me 0 rows.histories.now) };
}

// What all rows look at.
impl<'a> Rows<'a> {
    /// What this replica looks at, with these histories and versions, and with one version more where there is one.
    pub fn new(
        alloc: Global,
        me: ReplicaId,
        keys: &'a KeyRing,
        histories: &'a [History],
        versions: &'a VersionStore,
        more: Option<&'a Stored>,
    ) -> Rows<'a>
        requires { IsTrue (are_own me 0 histories.now) }
        ensures { result ≡ record {
          me = me;
          keys = keys.now;
          kinds = [];
          histories = histories.now;
          versions = versions.now ++ one_more (option_copied more.entry);
          waiting = [];
          fetching = [];
        } }
    {
        Rows {
            alloc,
            me,
            keys,
            histories,
            versions,
            more,
        }
    }

    /// The sizes of quorums.
    pub fn bounds(&self) -> Bounds
        ensures { result ≡ self.now.keys.bounds }
    {
        self.keys.bounds()
    }

    /// What the request's sets show of the objects of these parts.
    pub fn seen<X>(&self, asked: &Asked, parts: &[(ObjectId, X)]) -> Result<List<Seen>, NoMemory>
        ensures value { IfOk result (λ seen. seen ≡ seen_each self.now asked.now (objects_of parts.now)) }
        ensures one_each { IfOk result (λ seen. length seen ≡ length parts.now) }
    {
        let mut seen = List::new(self.alloc);
        for (object, _) in parts {
            seen.push(Seen::of(asked.sets, *object, &self.keys.bounds()))?;
        }
        Ok(seen)
    }

    /// The replica's history of an object, None exactly where it does not have the object.
    fn history(&self, object: ObjectId) -> Option<&'a History>
        ensures value { option_copied result ≡ slice_get self.now.histories object.0 }
        ensures rising { AreHistories self.now }
    {
        self.histories.get(usize::from(object.0))
    }

    /// The version of an object under a stamp, where the replica has it.
    #[tactic(auto, using(qu_versions::proofs::Lookup::finds_more))]
    fn version(&self, object: ObjectId, stamp: &Stamp) -> Option<&'a ObjState>
        ensures { option_copied result ≡ version_at object stamp.now self.now.versions }
    {
        match self.versions.get(object, stamp) {
            Some(version) => Some(version),
            None => version_of(self.more, object, stamp),
        }
    }

    /// The latest stamp that the replica accepted on the object.
    #[tactic(auto, unfolding(qu_history::specs::History::greatest_stamp))]
    fn own_latest(&self, object: ObjectId) -> Stamp
        ensures { result ≡ own_latest self.now object }
    {
        match self.history(object) {
            Some(history) => history.latest(),
            None => Stamp::opening(),
        }
    }
}
