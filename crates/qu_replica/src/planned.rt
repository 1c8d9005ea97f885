ghost use Rattle.std.specs.Prelude.{◌≡◌, [], None, Some};

use crate::seals::Seal;
use qu_base::{ClientId, List};
use qu_frames::Letter;
use qu_history::History;
use qu_versions::Prepared;
use qu_waiting::{Next, Running, Turn};
use std::alloc::Global;

/// The parts of a gain, in the order of its fields.
type GainParts = (
    List<History>,
    Prepared,
    Prepared,
    Option<Turn>,
    Option<List<Running>>,
);

/// What a replica's state gains by a step, as whole parts that are only moved in.
pub struct Gain {
    /// The histories of the objects of which candidates are accepted, with these candidates.
    pub histories: List<History>,
    /// A version that was fetched, which is stored behind the others, with its room.
    pub found: Prepared,
    /// The versions of what is accepted, which are stored behind it, with their room.
    pub versions: Prepared,
    /// The slot of the client whose request waits, or waits no longer.
    pub turn: Option<Turn>,
    /// The fetches that run from now on, where they change.
    pub fetching: Option<List<Running>>,
}

/// By hand, so that a value is let go in one step wherever that is.
impl Drop for Gain {
    fn drop(self) {
        let Gain {
            histories: _,
            found: _,
            versions: _,
            turn: _,
            fetching: _,
        } = self;
    }
}

impl Gain {
    /// Nothing.
    pub(crate) fn nothing(alloc: Global) -> Gain
        ensures histories { result.histories ≡ [] }
        ensures found { result.found ≡ [] }
        ensures versions { result.versions ≡ [] }
        ensures turn { result.turn ≡ None }
        ensures fetching { result.fetching ≡ None }
    {
        Gain {
            histories: List::new(alloc),
            found: Prepared::none(alloc),
            versions: Prepared::none(alloc),
            turn: None,
            fetching: None,
        }
    }

    /// This gain with these histories, and with these versions of what is accepted.
    pub(crate) fn with_accepted(self, histories: List<History>, versions: Prepared) -> Gain
        ensures { result ≡ record self { histories = histories; versions = versions } }
    {
        let Gain {
            histories: _,
            found,
            versions: _,
            turn,
            fetching,
        } = self;
        Gain {
            histories,
            found,
            versions,
            turn,
            fetching,
        }
    }

    /// This gain with this change of a slot.
    pub(crate) fn with_turn(self, client: ClientId, next: Next) -> Gain
        ensures { result ≡ record self { turn = Some (record { client = client; next = next }) } }
    {
        let Gain {
            histories,
            found,
            versions,
            turn: _,
            fetching,
        } = self;
        Gain {
            histories,
            found,
            versions,
            turn: Some(Turn { client, next }),
            fetching,
        }
    }

    /// This gain with these fetches.
    pub(crate) fn with_fetching(self, fetching: List<Running>) -> Gain
        ensures { result ≡ record self { fetching = Some fetching } }
    {
        let Gain {
            histories,
            found,
            versions,
            turn,
            fetching: _,
        } = self;
        Gain {
            histories,
            found,
            versions,
            turn,
            fetching: Some(fetching),
        }
    }

    /// Its parts, in the order of the fields.
    pub(crate) fn into_parts(self) -> GainParts
        ensures { result ≡ (self.histories, self.found, self.versions, self.turn, self.fetching) }
    {
        let Gain {
            histories,
            found,
            versions,
            turn,
            fetching,
        } = self;
        (histories, found, versions, turn, fetching)
    }
}

/// What a step of a replica will make. To carry it out takes no memory.
#[derive(Drop)]
pub struct Planned {
    /// What the replica's state gains.
    pub gain: Gain,
    pub letters: List<Letter>,
    /// What was sealed anew, to be kept.
    pub seals: List<Seal>,
}
