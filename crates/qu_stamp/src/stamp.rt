ghost use Rattle.std.specs.Prelude.{◌≡◌};
ghost use Rattle.qu_stamp.specs.Stamp.{stamp_cmp};

use qu_base::{ClientId, Digest};
use std::cmp::Ordering;

/// The logical time of a candidate. Stamps compare field by field: `false` before `true`, `None`
/// before `Some`, digests by their bytes.
#[derive(Clone, Copy, Debug, PartialEq, Eq, PartialOrd, Ord, Hash)]
pub struct Stamp {
    /// From 0 to `LAST_TIME`; 0 in the opening stamp alone.
    pub time: u64,
    /// Whether this is the stamp of a barrier.
    pub barrier: bool,
    /// Who asked for it.
    pub client: ClientId,
    /// The digest of the act that is performed; none in a barrier and in the opening stamp.
    pub act: Option<Digest>,
    /// The digest of the sets that were shown with the request.
    pub set: Digest,
}

impl Stamp {
    ghost use Rattle.qu_stamp.specs.Stamp.{opening_stamp, is_below, same_stamp};

    /// The stamp of the candidate with which each object begins.
    pub const fn opening() -> Stamp
        ensures { result ≡ opening_stamp }
    {
        Stamp {
            time: 0,
            barrier: false,
            client: ClientId(0),
            act: None,
            set: Digest([0; 32]),
        }
    }

    /// Whether this stamp is below the other one.
    #[tactic(auto, unfolding(crate::specs::Stamp::is_below))]
    pub fn is_below(&self, other: &Stamp) -> bool
        ensures { result ≡ is_below self.now other.now }
    {
        match compare(*self, *other) {
            Ordering::Less => true,
            Ordering::Equal | Ordering::Greater => false,
        }
    }
}

/// How the first stamp stands to the second.
fn compare(stamp: Stamp, other: Stamp) -> Ordering
    ensures { result ≡ stamp_cmp stamp other }
{
    stamp.cmp(&other)
}
