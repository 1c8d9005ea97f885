ghost use Rattle.std.specs.Prelude.{◌≡◌, IfOk};

use qu_base::{Item, List, NoMemory};
use std::alloc::Global;

/// What an operation answers: the items of its parts in their order, or the first refused part.
#[derive(PartialEq, Eq)]
pub enum Answer {
    Ok(List<Item>),
    /// The position of the part, from 0, and the number of the refusal: 3 (`OVER`) to 9 (`FULL`), or 12
    /// (`WRONG_KIND`).
    Refused { at: u8, why: u8 },
}

/// By hand, so that a value is let go in one step wherever that is.
impl Drop for Answer {
    fn drop(self) {
        match self {
            Answer::Ok(_) | Answer::Refused { at: _, why: _ } => {}
        }
    }
}

impl Answer {
    /// An equal answer.
    pub fn copy(&self, alloc: Global) -> Result<Answer, NoMemory>
        ensures { IfOk result (λ answer. answer ≡ self.now) }
    {
        Ok(match self {
            Answer::Ok(items) => Answer::Ok(items.copy(alloc)?),
            Answer::Refused { at, why } => Answer::Refused { at: *at, why: *why },
        })
    }
}
