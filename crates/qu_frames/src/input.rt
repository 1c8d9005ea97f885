ghost use Rattle.std.specs.Prelude.{◌≡◌, IfOk};

use qu_base::{List, NoMemory, Party};
use qu_objects::Op;
use std::alloc::Global;

/// Names the letter at a place, from 0, of the step of the actor `from` with this ticket.
#[derive(Clone, Copy, PartialEq, Eq)]
pub struct LetterName {
    pub from: Party,
    pub ticket: u64,
    pub place: u16,
}

/// What an actor makes a step on.
pub enum Input {
    /// The bytes of a frame, with the name of the letter that brought them.
    Frame(LetterName, List<u8>),
    /// One tick of the actor's clock.
    Tick,
    /// An operation that begins.
    Invoke(Op),
}

/// By hand, so that a value is let go in one step wherever that is.
impl Drop for Input {
    fn drop(self) {
        match self {
            Input::Frame(_, _) | Input::Tick | Input::Invoke(_) => {}
        }
    }
}

impl Input {
    /// An equal input.
    pub fn copy(&self, alloc: Global) -> Result<Input, NoMemory>
        ensures { IfOk result (λ input. input ≡ self.now) }
    {
        Ok(match self {
            Input::Frame(name, text) => Input::Frame(*name, text.copy(alloc)?),
            Input::Tick => Input::Tick,
            Input::Invoke(op) => Input::Invoke(op.copy(alloc)?),
        })
    }
}
