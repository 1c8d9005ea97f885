ghost use Rattle.std.specs.Prelude.{◌≡◌, IfOk};
ghost use Rattle.qu_trace.specs.Faulty.{is_same, is_faulty};

use super::Event;
use qu_base::{Bounds, ClientId, List, NoMemory, Party};
use qu_frames::Letter;
use qu_objects::{KindName, Outcome};
use std::alloc::Global;

/// Who takes part in a run, and what objects there are.
pub struct Setup {
    pub bounds: Bounds,
    /// For the keys, and for waits once there are any.
    pub seed: u64,
    /// Clients have the numbers from 1 to this one.
    pub clients: u16,
    /// The kinds of objects 0, 1, 2, ..
    pub kinds: List<KindName>,
    /// The faulty parties, which have no steps of their own.
    pub liars: List<Party>,
}

/// By hand, so that a value is let go in one step wherever that is.
impl Drop for Setup {
    fn drop(self) {
        let Setup {
            bounds: _,
            seed: _,
            clients: _,
            kinds: _,
            liars: _,
        } = self;
    }
}

impl Setup {
    /// An equal setup.
    pub fn copy(&self, alloc: Global) -> Result<Setup, NoMemory>
        ensures { IfOk result (λ setup. setup ≡ self.now) }
    {
        Ok(Setup {
            bounds: self.bounds,
            seed: self.seed,
            clients: self.clients,
            kinds: self.kinds.copy(alloc)?,
            liars: self.liars.copy(alloc)?,
        })
    }

    /// Whether the party is faulty.
    pub fn is_faulty(&self, who: Party) -> bool
        ensures { result ≡ is_faulty self.now who }
    {
        self.liars.iter().any(|liar| is_same(*liar, who))
    }
}

fn is_same(one: Party, other: Party) -> bool
    ensures { result ≡ is_same one other }
{
    match (one, other) {
        (Party::Replica(one), Party::Replica(other)) => one.0 == other.0,
        (Party::Client(one), Party::Client(other)) => one.0 == other.0,
        (Party::Replica(_), Party::Client(_)) | (Party::Client(_), Party::Replica(_)) => false,
    }
}

/// An event of a run, and what it made.
pub struct Entry {
    pub event: Event,
    /// The letters that were sent.
    pub letters: List<Letter>,
    /// The operation that ended: its client, its number, and how.
    pub ended: Option<(ClientId, u64, Outcome)>,
}

/// By hand, so that a value is let go in one step wherever that is.
impl Drop for Entry {
    fn drop(self) {
        let Entry {
            event: _,
            letters: _,
            ended: _,
        } = self;
    }
}

impl Entry {
    /// An equal entry.
    pub fn copy(&self, alloc: Global) -> Result<Entry, NoMemory>
        ensures { IfOk result (λ entry. entry ≡ self.now) }
    {
        let letters = Letter::copy_all(alloc, self.letters.as_slice())?;
        let ended = match &self.ended {
            Some((client, number, outcome)) => Some((*client, *number, outcome.copy(alloc)?)),
            None => None,
        };
        Ok(Entry {
            event: self.event.copy(alloc)?,
            letters,
            ended,
        })
    }
}

/// A run, from its setup on. Events are numbered from 1, and so are letters.
pub struct Trace {
    pub setup: Setup,
    pub entries: List<Entry>,
}

/// By hand, so that a value is let go in one step wherever that is.
impl Drop for Trace {
    fn drop(self) {
        let Trace {
            setup: _,
            entries: _,
        } = self;
    }
}

impl Trace {
    /// An equal run.
    pub fn copy(&self, alloc: Global) -> Result<Trace, NoMemory>
        ensures { IfOk result (λ trace. trace ≡ self.now) }
    {
        let mut entries = List::new(alloc);
        for entry in self.entries.as_slice() {
            entries.push(entry.copy(alloc)?)?;
        }
        Ok(Trace {
            setup: self.setup.copy(alloc)?,
            entries,
        })
    }
}
