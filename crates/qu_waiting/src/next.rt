ghost use Rattle.std.specs.Prelude.{◌≡◌};
ghost use Rattle.qu_waiting.specs.Slots.{next_slot};

use crate::waiting::Waiting;
use qu_base::{ClientId, List, ObjectId};
use qu_stamp::Stamp;

/// What the slot of a client holds from now on.
pub enum Next {
    /// No request waits.
    Nothing,
    /// This request waits.
    Waits(Waiting),
    /// The request that waits lacks these versions.
    Lacks(List<(ObjectId, Stamp)>),
}

/// By hand, so that a value is let go in one step wherever that is.
impl Drop for Next {
    fn drop(self) {
        match self {
            Next::Nothing | Next::Waits(_) | Next::Lacks(_) => {}
        }
    }
}

impl Next {
    /// What a slot that holds this holds then.
    pub(crate) fn slot_after(self, slot: Option<Waiting>) -> Option<Waiting>
        ensures { result ≡ next_slot self slot }
    {
        match self {
            Next::Nothing => None,
            Next::Waits(waiting) => Some(waiting),
            Next::Lacks(missing) => match slot {
                Some(waiting) => Some(waiting.with_missing(missing)),
                None => None,
            },
        }
    }
}

/// A slot that changes: whose it is, and what it holds from now on.
pub struct Turn {
    pub client: ClientId,
    pub next: Next,
}

/// By hand, so that a value is let go in one step wherever that is.
impl Drop for Turn {
    fn drop(self) {
        let Turn { client: _, next: _ } = self;
    }
}

impl Turn {
    /// Whose slot it is, and what it holds from now on.
    pub(crate) fn into_parts(self) -> (ClientId, Next)
        ensures { result ≡ (self.client, self.next) }
    {
        let Turn { client, next } = self;
        (client, next)
    }
}
