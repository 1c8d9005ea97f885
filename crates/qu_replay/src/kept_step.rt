ghost use Rattle.std.specs.Prelude.{◌≡◌, IfOk};

use qu_base::{ClientId, List, NoMemory};
use qu_frames::{Input, Letter};
use qu_objects::Outcome;
use std::alloc::Global;

/// What an actor took in a step, and what it made of it.
#[derive(Drop)]
pub struct KeptStep {
    /// Of steps with different tickets, the one with the smaller ticket comes first.
    pub ticket: u64,
    pub input: Input,
    /// The letters that were sent.
    pub letters: List<Letter>,
    /// The operation that ended: its client, its number, and how.
    pub ended: Option<(ClientId, u64, Outcome)>,
}

impl KeptStep {
    /// An equal step.
    pub fn copy(&self, alloc: Global) -> Result<KeptStep, NoMemory>
        ensures { IfOk result (λ step. step ≡ self.now) }
    {
        let letters = Letter::copy_all(alloc, self.letters.as_slice())?;
        let ended = match &self.ended {
            Some((client, number, outcome)) => Some((*client, *number, outcome.copy(alloc)?)),
            None => None,
        };
        Ok(KeptStep {
            ticket: self.ticket,
            input: self.input.copy(alloc)?,
            letters,
            ended,
        })
    }
}
