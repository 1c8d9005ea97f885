ghost use Rattle.std.specs.Prelude.{◌≡◌, IfOk};

use qu_base::{NoMemory, Shared};
use qu_history::Sealed;

/// What a kept history is to the operation under way.
#[derive(Clone, Copy, PartialEq, Eq)]
pub enum Mark {
    /// The round's sets do not hold it: it is of another object, or was trimmed away, or came since the round began.
    Unshown,
    /// The round's sets hold it.
    Shown,
    /// Replicas named it as culled, and this operation's sets hold it no more.
    LeftOut,
}

/// The newest sealed history of an object that a replica sent, and which request it answered.
pub struct Kept {
    pub sealed: Shared<Sealed>,
    pub number: u64,
    pub round: u8,
    pub mark: Mark,
}

/// By hand, so that a value is let go in one step wherever that is.
impl Drop for Kept {
    fn drop(self) {
        let Kept {
            sealed: _,
            number: _,
            round: _,
            mark: _,
        } = self;
    }
}

impl Mark {
    ghost use Rattle.qu_question.specs.Kept.{is_shown, is_left_out};

    pub fn is_shown(self) -> bool
        ensures { result ≡ is_shown self }
    {
        match self {
            Mark::Shown => true,
            Mark::Unshown | Mark::LeftOut => false,
        }
    }

    pub fn is_left_out(self) -> bool
        ensures { result ≡ is_left_out self }
    {
        match self {
            Mark::LeftOut => true,
            Mark::Unshown | Mark::Shown => false,
        }
    }
}

impl Kept {
    ghost use Rattle.qu_question.specs.Kept.{is_older, same_source};

    /// Whether both are of one object and one replica.
    fn is_of_source(&self, other: &Kept) -> bool
        ensures { result ≡ same_source self.now.sealed.history other.now.sealed.history }
    {
        let mine = &self.sealed.get().history;
        let theirs = &other.sealed.get().history;
        mine.object().0 == theirs.object().0 && mine.replica().0 == theirs.replica().0
    }

    /// Whether it was sent in answer to an older request.
    fn is_older(&self, other: &Kept) -> bool
        ensures { result ≡ is_older self.now.number self.now.round other.now.number other.now.round }
    {
        self.number < other.number || self.number == other.number && self.round < other.round
    }

    /// This history with its answer, held once more and not copied.
    pub fn share(&self) -> Result<Kept, NoMemory>
        ensures { IfOk result (λ kept. kept ≡ self.now) }
    {
        Ok(Kept {
            sealed: self.sealed.share()?,
            number: self.number,
            round: self.round,
            mark: self.mark,
        })
    }
}

mod keeping;
mod marking;

pub(crate) use keeping::kept_of;
pub use keeping::{copies, keep_all};
pub use marking::{marked_shown, unmarked};
