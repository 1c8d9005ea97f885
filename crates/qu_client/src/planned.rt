ghost use Rattle.std.specs.Prelude.{◌≡◌, [], None, Some, IfOk};

use crate::backoff::Backoff;
use crate::work::{Counted, Phase, Work};
use qu_base::{List, NoMemory};
use qu_frames::Letter;
use qu_objects::Outcome;
use qu_question::{Kept, Named};
use std::alloc::Global;

/// What a step made: letters to send, and the end of the operation if it ended.
#[derive(Drop)]
pub struct Moved {
    pub letters: List<Letter>,
    pub ended: Option<Outcome>,
}

impl Moved {
    /// Equal letters and an equal end.
    pub fn copy(&self, alloc: Global) -> Result<Moved, NoMemory>
        ensures { IfOk result (λ moved. moved ≡ self.now) }
    {
        let letters = Letter::copy_all(alloc, self.letters.as_slice())?;
        let ended = match &self.ended {
            Some(outcome) => Some(outcome.copy(alloc)?),
            None => None,
        };
        Ok(Moved { letters, ended })
    }

    /// What is made where nothing is sent and nothing ends.
    pub(crate) fn nothing(alloc: Global) -> Moved
        ensures letters { result.letters ≡ [] }
        ensures ended { result.ended ≡ None }
    {
        Moved {
            letters: List::new(alloc),
            ended: None,
        }
    }
}

/// What becomes of the operation under way.
#[derive(Drop)]
pub enum Turn {
    /// It stays as it is.
    Stays,
    /// It ends.
    Ends,
    /// A round of this operation begins, the first one or a later one.
    Begins(Work),
    /// These verdicts count in its round.
    Counts(List<Counted>),
    /// It rests so many ticks, with these objects named. Later rests are drawn from what is left.
    Rests {
        ticks: u32,
        waits: Backoff,
        named: Named,
    },
    /// Its round goes on in this phase.
    Passes(Phase),
}

/// What a step of a client will make. To carry it out takes no memory.
#[derive(Drop)]
pub struct Planned {
    /// What is kept from now on, where that changes. No history is copied for it.
    pub kept: Option<List<Kept>>,
    pub turn: Turn,
    pub moved: Moved,
}

impl Planned {
    /// A step that sends nothing, after which the operation stands so.
    pub(crate) fn turned(alloc: Global, turn: Turn) -> Planned
        ensures { result ≡ record { kept = None; turn = turn; moved = record { letters = []; ended = None } } }
    {
        Planned {
            kept: None,
            turn,
            moved: Moved::nothing(alloc),
        }
    }

    /// A step that sends nothing, after which these histories are kept and the operation stands so.
    pub(crate) fn kept(alloc: Global, kept: List<Kept>, turn: Turn) -> Planned
        ensures { result ≡ record { kept = Some kept; turn = turn; moved = record { letters = []; ended = None } } }
    {
        Planned {
            kept: Some(kept),
            turn,
            moved: Moved::nothing(alloc),
        }
    }

    /// A step after which these histories are kept, and with which the operation ends so.
    pub(crate) fn ended(alloc: Global, kept: List<Kept>, outcome: Outcome) -> Planned
        ensures { result ≡ record {
          kept = Some kept;
          turn = Turn.Ends;
          moved = record { letters = []; ended = Some outcome };
        } }
    {
        Planned {
            kept: Some(kept),
            turn: Turn::Ends,
            moved: Moved {
                letters: List::new(alloc),
                ended: Some(outcome),
            },
        }
    }
}
