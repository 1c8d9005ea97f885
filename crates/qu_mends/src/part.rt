ghost use Rattle.std.specs.Prelude.{◌≡◌};
ghost use Rattle.qu_history.specs.History.{latest, holds};
ghost use Rattle.qu_mends.specs.Table.{has_no_room};
ghost use Rattle.qu_mends.specs.Remedy.{missing_key};

use crate::table::has_no_room;
use qu_base::ObjectId;
use qu_history::History;
use qu_kept::Remedy;
use qu_objects::ObjState;
use qu_stamp::{Candidate, Stamp};
use std::marker::Model;

/// An object that is mended: what its sets show of it, what mends it, and what the replica has of it.
#[derive(Drop)]
pub struct Part<'a> {
    pub object: ObjectId,
    /// The latest stamp that the sets show of it.
    pub latest: Stamp,
    pub remedy: Remedy,
    /// The replica's history of it, where it has the object.
    pub own: Option<&'a History>,
    /// The version under the stamp that the remedy wants, where the replica has it.
    pub version: Option<&'a ObjState>,
}

impl<'a> Model for Part<'a> {
    ghost use Rattle.std.specs.Option.{option_copied};
    ghost use Rattle.qu_mends.specs.Table.{candidates_in};
    ghost use Rattle.qu_mends.specs.Remedy.{MendPart};

    ghost Value = { MendPart };

    ghost view = { λ part. record {
      object = part.object;
      latest = part.latest;
      remedy = part.remedy;
      own = candidates_in (option_copied part.own);
      version = option_copied part.version;
    } };
}

impl<'a> Part<'a> {
    /// The latest stamp of the replica's candidates of the object.
    #[tactic(auto, unfolding(qu_history::specs::History::greatest_stamp))]
    pub(crate) fn own_latest(&self) -> Stamp
        ensures { result ≡ latest self.now.own }
    {
        match self.own {
            Some(own) => own.latest(),
            None => Stamp::opening(),
        }
    }

    /// Whether the replica holds the candidate.
    pub(crate) fn holds(&self, candidate: &Candidate) -> bool
        ensures { result ≡ holds candidate.now self.now.own }
    {
        match self.own {
            Some(own) => own.holds(candidate),
            None => false,
        }
    }

    /// Whether its history has no room for a candidate more.
    pub(crate) fn is_full(&self) -> bool
        ensures { result ≡ has_no_room self.now.own }
    {
        match self.own {
            Some(own) => has_no_room(own),
            None => false,
        }
    }

    /// The version that is missing, as a key.
    #[tactic(auto, unfolding(qu_kept::specs::Remedy::wanted_by))]
    pub(crate) fn missing(&self) -> Option<(ObjectId, Stamp)>
        ensures { result ≡ missing_key self.now }
    {
        match (self.remedy.wanted(), self.version) {
            (Some(stamp), None) => Some((self.object, stamp)),
            _ => None,
        }
    }
}
