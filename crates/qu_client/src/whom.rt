ghost use Rattle.std.specs.Prelude.{◌≡◌, map};
ghost use Rattle.qu_question.specs.Question.{lowest_of};
ghost use Rattle.qu_client.specs.Whom.{is_asked, first_object};

use crate::picking::preferred;
use qu_base::{Bounds, ObjectId, ReplicaId};
use qu_objects::Op;

/// To which replicas a request goes.
#[derive(Clone, Copy, PartialEq, Eq)]
pub enum Whom {
    All,
    /// Those that are preferred for an operation whose lowest object is this one.
    Preferred(ObjectId),
    /// All but those.
    Others(ObjectId),
}

impl Whom {
    /// Whether the request goes to the replica.
    pub fn includes(self, bounds: Bounds, replica: u8) -> bool
        ensures { result ≡ is_asked bounds self replica }
    {
        match self {
            Whom::All => true,
            Whom::Preferred(first) => preferred(first, ReplicaId(replica), &bounds),
            Whom::Others(first) => !preferred(first, ReplicaId(replica), &bounds),
        }
    }
}

/// The lowest object that an operation names.
pub fn first_object(op: &Op) -> ObjectId
    ensures { result ≡ first_object op.now }
{
    match op {
        Op::Act(act) => first_in(act.parts().as_slice()),
        Op::Query(query) => first_in(query.parts().as_slice()),
    }
}

/// The object of the first part.
fn first_in<T>(parts: &[(ObjectId, T)]) -> ObjectId
    ensures { result ≡ lowest_of (map (λ part. part.0) parts.now) }
{
    match parts {
        [] => ObjectId(0),
        [first, ..] => first.0,
    }
}
