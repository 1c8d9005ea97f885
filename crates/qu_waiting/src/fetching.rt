ghost use Rattle.std.specs.Prelude.{◌≡◌, ◌<◌, ◌+◌, ℕ, List as Sequence, [], ◌∷◌, ◌++◌, IsTrue, false, Ok, IfOk, OnOk, OnErr};
ghost use Rattle.qu_base.specs.declared.limits.TheConstants.{REPLICA_IDS};
ghost use Rattle.qu_waiting.specs.Tally.{has_voted, count_of};
ghost use Rattle.qu_waiting.specs.Fetching.{same_bytes, identical_answers, completes, fetched, with_answer};

use crate::tally::Tally;
use qu_base::{List, NoMemory, ReplicaId};
use std::alloc::Global;
use std::marker::Model;

/// What an answer brings.
#[derive(Drop)]
pub enum Fetch {
    /// The answer is the last that was needed; this is its text.
    Found(List<u8>),
    /// Nothing yet, or nothing more.
    Still,
}

impl Fetch {
    /// What an answer brings, with a copy of its text.
    pub fn copy(&self, alloc: Global) -> Result<Fetch, NoMemory>
        ensures { IfOk result (λ fetch. fetch ≡ self.now) }
    {
        Ok(match self {
            Fetch::Found(text) => Fetch::Found(text.copy(alloc)?),
            Fetch::Still => Fetch::Still,
        })
    }
}

/// A version that is being fetched, and the answers of replicas, of which each is taken once.
pub struct Fetching {
    alloc: Global,
    need: u8,
    answers: Tally<List<u8>>,
}

/// By hand, so that a value is let go in one step wherever that is.
impl Drop for Fetching {
    fn drop(self) {
        let Fetching {
            alloc: _,
            need: _,
            answers: _,
        } = self;
    }
}

impl Model for Fetching {
    ghost use Rattle.qu_waiting.specs.Fetching.{Answers};

    ghost Value = { Answers };

    ghost view = { λ fetching. record { need = fetching.need; votes = fetching.answers } };
}

impl Fetching {
    /// A fetch that needs so many identical answers, and has none. It takes no memory until it grows.
    pub fn start(alloc: Global, need: u8) -> Fetching
        ensures { result ≡ record { need = need; votes = [] } }
    {
        Fetching {
            alloc,
            need,
            answers: Tally::new(alloc),
        }
    }

    /// Takes the answer of a replica: the text is found exactly where this answer is the first of its replica and
    /// the last of the identical ones that are needed. Without memory nothing changes.
    pub fn take(&mut self, replica: ReplicaId, text: List<u8>) -> Result<Fetch, NoMemory>
        requires { replica.0 < REPLICA_IDS }
        ensures fetched { IfOk result (λ fetch. fetch ≡ fetched self.old replica text) }
        ensures enough { (given : Sequence ℕ) → result ≡ Ok (Fetch.Found given)
            → (given ≡ text) × (identical_answers text self.new ≡ self.old.need) }
        ensures with_answer { OnOk result (self.new ≡ with_answer self.old replica text) }
        ensures twice { IsTrue (has_voted replica self.old.votes) → result ≡ Ok Fetch.Still }
        ensures err { OnErr result (self.new ≡ self.old) }
    {
        if self.answers.has(replica) {
            return Ok(Fetch::Still);
        }
        if self.answers.count(&text) + 1 == self.need {
            let copy = text.copy(self.alloc)?;
            keep(&mut self.answers, replica, copy)?;
            Ok(Fetch::Found(text))
        } else {
            keep(&mut self.answers, replica, text)?;
            Ok(Fetch::Still)
        }
    }

    /// Whether this replica answered.
    pub fn has_answered(&self, replica: ReplicaId) -> bool
        ensures { result ≡ has_voted replica self.now.votes }
    {
        self.answers.has(replica)
    }

    /// Whether this answer is the first of its replica, and the last of the identical ones that are needed.
    pub fn completes(&self, replica: ReplicaId, text: &List<u8>) -> bool
        ensures { result ≡ completes self.now replica text.now }
    {
        !self.answers.has(replica) && self.answers.count(text) + 1 == self.need
    }

    /// An equal fetch.
    pub fn copy(&self) -> Result<Fetching, NoMemory>
        ensures { IfOk result (λ fetching. fetching ≡ self.now) }
    {
        let answers = self.answers.copy(self.alloc)?;
        Ok(Fetching {
            alloc: self.alloc,
            need: self.need,
            answers,
        })
    }
}

/// Keeps the first answer of a replica, which makes one more of those identical to it.
fn keep(answers: &mut Tally<List<u8>>, replica: ReplicaId, text: List<u8>) -> Result<(), NoMemory>
    requires known { replica.0 < REPLICA_IDS }
    requires first { has_voted replica answers.old ≡ false }
    ensures kept { OnOk result (answers.new ≡ answers.old ++ record { replica = replica; value = text } ∷ []) }
    ensures counted { OnOk result (count_of same_bytes text answers.new ≡ count_of same_bytes text answers.old + 1) }
    ensures err { OnErr result (answers.new ≡ answers.old) }
{
    match answers.take(replica, text) {
        Ok(()) => Ok(()),
        Err(_) => Err(NoMemory),
    }
}
