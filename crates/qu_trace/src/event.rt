ghost use Rattle.std.specs.Prelude.{◌≡◌, IfOk};

use qu_base::{ClientId, List, NoMemory, Party};
use qu_objects::Op;
use std::alloc::Global;

/// One step of a run: something happens at one party.
pub enum Event {
    /// A client begins an operation.
    Invoke(ClientId, Op),
    /// The letter with this number, counted from 1, reaches its receiver, for the first time or
    /// once more.
    Deliver(u64),
    /// Time passes at a client.
    Tick(ClientId),
    /// These bytes reach a party, though maybe no party sent them.
    Inject(Party, List<u8>),
}

/// By hand, so that an event is let go in one step wherever that is.
impl Drop for Event {
    fn drop(self) {
        match self {
            Event::Invoke(_, _) | Event::Deliver(_) | Event::Tick(_) | Event::Inject(_, _) => {}
        }
    }
}

impl Event {
    /// An equal event.
    pub fn copy(&self, alloc: Global) -> Result<Event, NoMemory>
        ensures { IfOk result (λ event. event ≡ self.now) }
    {
        Ok(match self {
            Event::Invoke(client, op) => Event::Invoke(*client, op.copy(alloc)?),
            Event::Deliver(letter) => Event::Deliver(*letter),
            Event::Tick(client) => Event::Tick(*client),
            Event::Inject(party, text) => Event::Inject(*party, text.copy(alloc)?),
        })
    }
}
