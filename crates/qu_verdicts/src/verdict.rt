ghost use Rattle.std.specs.Prelude.{◌≡◌, ◌↔◌, IfOk};

use qu_base::{List, NoMemory, ObjectId};
use qu_objects::Answer;
use qu_stamp::Stamp;
use std::alloc::Global;

/// The class of an object upon which no operation may rest.
#[derive(Clone, Copy, Debug, PartialEq, Eq)]
pub enum ClassCode {
    InlineMethod,
    Copy,
    InlineBarrier,
    Barrier,
    /// More histories are needed to tell.
    Needs,
}

/// Why a replica refuses a request, by numbers that stand in bytes. Nothing changed at it.
#[derive(Clone, Copy, Debug, PartialEq, Eq)]
pub enum Refusal {
    /// Number 11: the history of this object is full.
    HistoryFull(ObjectId),
    /// Number 13: the sets have fewer entries of this object than a quorum.
    Thin(ObjectId),
    /// Number 15: more of this object has to be shown.
    Needs(ObjectId),
    /// Number 16: the version of this object has a greater link to the target than the stamp that the candidate to be
    /// copied names for this object.
    Stale(ObjectId),
    /// Number 22: the replica has a later candidate of this object, whose stamp is told.
    NotCurrent(ObjectId, Stamp),
    /// Number 23: an operation may not rest upon this object, which is of the class told.
    NotMethod(ObjectId, ClassCode),
    /// Number 24: the client's operation with this number, told, or a later one was performed upon this object.
    Spent(ObjectId, u64),
    /// Number 25: the time of this object is spent.
    TimeSpent(ObjectId),
    /// Number 26: the replica does not have this object.
    UnknownObject(ObjectId),
    /// Number 27: the sets are sound for this object, and there is nothing to mend.
    Sound(ObjectId),
}

/// What a replica answers to a request.
#[derive(PartialEq, Eq)]
pub enum Verdict {
    /// The act was performed: the stamps of its candidates, and the answer.
    Done {
        stamps: List<(ObjectId, Stamp)>,
        answer: Answer,
    },
    /// The query was answered: the stamps of the versions that were read, and the answer.
    Told {
        stamps: List<(ObjectId, Stamp)>,
        answer: Answer,
    },
    /// The act was performed before, and answered so.
    Already(Answer),
    /// This object was mended: the stamp of the candidate that was added.
    Mended(ObjectId, Stamp),
    Refused(Refusal),
}

/// By hand, so that a verdict is let go in one step wherever that is.
impl Drop for Verdict {
    fn drop(self) {
        match self {
            Verdict::Done {
                stamps: _,
                answer: _,
            }
            | Verdict::Told {
                stamps: _,
                answer: _,
            } => {}
            Verdict::Already(_) | Verdict::Mended(_, _) | Verdict::Refused(_) => {}
        }
    }
}

impl Verdict {
    ghost use Rattle.qu_verdicts.specs.Verdict.{same_verdict};

    /// Whether it is the same verdict, with the same stamps and the same answer.
    #[tactic(auto, unfolding(qu_stamp::specs::Stamp::same_stamp))]
    pub fn is_same(&self, other: &Verdict) -> bool
        ensures { result ≡ same_verdict self.now other.now }
    {
        self == other
    }

    /// An equal verdict.
    pub fn copy(&self, alloc: Global) -> Result<Verdict, NoMemory>
        ensures { IfOk result (λ verdict. verdict ≡ self.now) }
    {
        Ok(match self {
            Verdict::Done { stamps, answer } => Verdict::Done {
                stamps: stamps.copy(alloc)?,
                answer: answer.copy(alloc)?,
            },
            Verdict::Told { stamps, answer } => Verdict::Told {
                stamps: stamps.copy(alloc)?,
                answer: answer.copy(alloc)?,
            },
            Verdict::Already(answer) => Verdict::Already(answer.copy(alloc)?),
            Verdict::Mended(object, stamp) => Verdict::Mended(*object, *stamp),
            Verdict::Refused(refusal) => Verdict::Refused(*refusal),
        })
    }
}
