ghost use Rattle.std.specs.Prelude.{◌≡◌};
ghost use Rattle.qu_class.specs.Class.{method_of};
ghost use Rattle.qu_mends.specs.Seen.{seen_in};

use qu_base::{Bounds, ObjectId};
use qu_class::{Class, classify};
use qu_history::Sets;
use qu_stamp::{Candidate, Stamp};

/// An object as the sets of a request show it. They are read once for it, and all rows look at what was read.
#[derive(Clone, Copy, PartialEq, Eq)]
pub struct Seen {
    pub object: ObjectId,
    /// The latest stamp, the opening one where the sets show none.
    pub latest: Stamp,
    pub class: Class,
    /// The candidate upon which an operation may rest: that of class METHOD.
    pub method: Option<Candidate>,
}

impl Seen {
    /// What these sets show of the object.
    #[tactic(auto, using(qu_history::proofs::Method::latest_of_none, qu_class::proofs::ClassRows::method_told))]
    pub fn of(sets: &Sets, object: ObjectId, bounds: &Bounds) -> Seen
        ensures { result ≡ seen_in bounds.now sets.now object }
    {
        let class = classify(sets, object, bounds);
        let latest = sets.latest(object).unwrap_or(Stamp::opening());
        let method = method_of(&class);
        Seen {
            object,
            latest,
            class,
            method,
        }
    }
}

/// The candidate of class METHOD.
fn method_of(class: &Class) -> Option<Candidate>
    ensures { result ≡ method_of class.now }
{
    match class {
        Class::Method(candidate) => Some(*candidate),
        _ => None,
    }
}
