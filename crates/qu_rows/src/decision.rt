ghost use Rattle.std.specs.Prelude.{◌≡◌, IfOk};
ghost use Rattle.qu_rows.specs.Rows.{refuse};

use qu_base::{List, NoMemory, ObjectId};
use qu_frames::{Refusal, Verdict};
use qu_mends::Accepted;
use qu_stamp::Stamp;
use std::alloc::Global;

/// Equal candidates with equal versions.
fn copies(alloc: Global, accepted: &[Accepted]) -> Result<List<Accepted>, NoMemory>
    ensures { IfOk result (λ copies. copies ≡ accepted.now) }
{
    let mut copies = List::new(alloc);
    for one in accepted {
        copies.push(one.copy(alloc)?)?;
    }
    Ok(copies)
}

/// What a replica makes of a request.
#[derive(Drop)]
pub enum Decision {
    /// It accepts these candidates, none of a refusal or a query, and answers.
    Answers {
        verdict: Verdict,
        accepted: List<Accepted>,
    },
    /// These versions are missing, upon which the operation rests: it waits for them, and is not answered.
    Waits {
        missing: List<(ObjectId, Stamp)>,
    },
}

impl Decision {
    /// An equal decision.
    pub fn copy(&self, alloc: Global) -> Result<Decision, NoMemory>
        ensures { IfOk result (λ decision. decision ≡ self.now) }
    {
        Ok(match self {
            Decision::Answers { verdict, accepted } => Decision::Answers {
                verdict: verdict.copy(alloc)?,
                accepted: copies(alloc, accepted.as_slice())?,
            },
            Decision::Waits { missing } => Decision::Waits {
                missing: List::from_clones(alloc, missing.as_slice())?,
            },
        })
    }
}

/// The decision to accept nothing.
pub fn refuse(alloc: Global, why: Refusal) -> Decision
    ensures { result ≡ refuse why }
{
    Decision::Answers {
        verdict: Verdict::Refused(why),
        accepted: List::new(alloc),
    }
}
