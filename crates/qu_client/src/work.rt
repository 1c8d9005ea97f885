ghost use Rattle.std.specs.Prelude.{◌≡◌, IfOk};

use super::Whom;
use super::verdicts::has_replied;
use super::whom::first_object;
use qu_base::{List, NoMemory, ObjectId, ReplicaId, Shared};
use qu_frames::{Body, Verdict};
use qu_history::Sets;
use qu_objects::Op;
use qu_question::{Named, Question};
use std::alloc::Global;

/// A verdict that counts: the first one of its replica in the round.
pub struct Counted {
    pub replica: ReplicaId,
    pub verdict: Shared<Verdict>,
    /// What the reply names as culled.
    pub culled: Shared<List<(ObjectId, ReplicaId)>>,
}

/// By hand, so that a value is let go in one step wherever that is.
impl Drop for Counted {
    fn drop(self) {
        let Counted {
            replica: _,
            verdict: _,
            culled: _,
        } = self;
    }
}

/// Where an operation stands.
#[derive(Clone, Copy, PartialEq, Eq)]
pub enum Phase {
    /// Replicas were asked in this round, all of them or the preferred ones alone, and their verdicts are counted.
    Asking { all: bool },
    /// The round ended, and the next one begins after so many ticks.
    Resting { ticks: u32 },
}

/// The operation under way.
pub struct Work {
    pub op: Op,
    /// From 1 on.
    pub number: u64,
    /// From 1 to `LAST_ROUND`.
    pub round: u8,
    pub phase: Phase,
    /// The objects that are named: its own, and those that were added since it began.
    pub named: Named,
    /// The sets of the round's request, which may be sent again.
    pub sets: Sets,
    /// What the round's request asks for.
    pub body: Body,
    /// The verdicts that count in this round, in the order in which they came.
    pub replies: List<Counted>,
}

impl Counted {
    /// A replica's verdict, with what its reply names as culled.
    fn of(
        alloc: Global,
        replica: ReplicaId,
        verdict: &Verdict,
        culled: &List<(ObjectId, ReplicaId)>,
    ) -> Result<Counted, NoMemory>
        ensures { IfOk result
            (λ counted. counted ≡ record { replica = replica; verdict = verdict.now; culled = culled.now }) }
    {
        let culled = culled.copy(alloc)?;
        Ok(Counted {
            replica,
            verdict: Shared::new(alloc, verdict.copy(alloc)?)?,
            culled: Shared::new(alloc, culled)?,
        })
    }

    /// This verdict with its replica, held once more and not copied.
    pub fn share(&self) -> Result<Counted, NoMemory>
        ensures { IfOk result (λ counted. counted ≡ self.now) }
    {
        let culled = self.culled.share()?;
        Ok(Counted {
            replica: self.replica,
            verdict: self.verdict.share()?,
            culled,
        })
    }
}

impl Phase {
    ghost use Rattle.qu_client.specs.Work.{is_asking, rest_left};

    /// Whether verdicts are counted.
    pub fn is_asking(self) -> bool
        ensures { result ≡ is_asking self }
    {
        match self {
            Phase::Asking { all: _ } => true,
            Phase::Resting { ticks: _ } => false,
        }
    }

    /// How many ticks are left of a rest.
    pub fn rest_left(self) -> Option<u32>
        ensures { result ≡ rest_left self }
    {
        match self {
            Phase::Asking { all: _ } => None,
            Phase::Resting { ticks } => Some(ticks),
        }
    }
}

/// By hand, so that an operation is let go in one step wherever that is.
impl Drop for Work {
    fn drop(self) {
        let Work {
            op: _,
            number: _,
            round: _,
            phase: _,
            named: _,
            sets: _,
            body: _,
            replies: _,
        } = self;
    }
}

impl Work {
    ghost use Rattle.qu_client.specs.Whom.{whom_asked};
    ghost use Rattle.qu_client.specs.Work.{work_asking};
    ghost use Rattle.qu_client.specs.Work.{counts, with_reply};

    /// An operation in a round that asks this.
    pub fn asking(alloc: Global, op: Op, number: u64, round: u8, question: Question) -> Work
        ensures { result ≡ work_asking op number round question }
    {
        let Question {
            named,
            sets,
            body,
            all,
        } = question;
        Work {
            op,
            number,
            round,
            phase: Phase::Asking { all },
            named,
            sets,
            body,
            replies: List::new(alloc),
        }
    }

    /// Who was asked so far in the round under way.
    pub fn whom_asked(&self) -> Whom
        ensures { result ≡ whom_asked self.now }
    {
        match self.phase {
            Phase::Asking { all: false } => Whom::Preferred(first_object(&self.op)),
            Phase::Asking { all: true } | Phase::Resting { ticks: _ } => Whom::All,
        }
    }

    /// Whether a verdict counts: it is of the round under way, and the first of its replica.
    pub fn counts(&self, replica: ReplicaId, number: u64, round: u8) -> bool
        ensures { result ≡ counts self.now replica number round }
    {
        self.phase.is_asking()
            && number == self.number
            && round == self.round
            && !has_replied(self.replies.as_slice(), replica.0)
    }

    /// The verdicts that count, with one more, and with what its reply names as culled.
    pub fn with_reply(
        &self,
        alloc: Global,
        replica: ReplicaId,
        verdict: &Verdict,
        culled: &List<(ObjectId, ReplicaId)>,
    ) -> Result<List<Counted>, NoMemory>
        ensures { IfOk result
            (λ replies. replies ≡ with_reply self.now.replies replica verdict.now culled.now) }
    {
        let mut replies = copies(alloc, self.replies.as_slice())?;
        replies.push(Counted::of(alloc, replica, verdict, culled)?)?;
        Ok(replies)
    }
}

/// These verdicts, each held once more and not copied.
fn copies(alloc: Global, replies: &[Counted]) -> Result<List<Counted>, NoMemory>
    ensures { IfOk result (λ copies. copies ≡ replies.now) }
{
    let mut copies = List::new(alloc);
    for counted in replies {
        copies.push(counted.share()?)?;
    }
    Ok(copies)
}
