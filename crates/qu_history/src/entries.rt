ghost use Rattle.std.specs.Prelude.{◌≡◌, ◌≤◌, length};
ghost use Rattle.qu_history.specs.Sets.{histories, order_of, latest_of};

use super::Sealed;
use qu_stamp::{Candidate, Stamp};

/// How many of the entries of an object hold the candidate.
#[tactic(auto, unfolding(crate::specs::Sets::order_of), using(crate::proofs::Method::order_of_most))]
pub fn order_of(entries: &[Sealed], candidate: &Candidate) -> usize
    ensures value { result ≡ order_of candidate.now (histories entries.now) }
    ensures most { result ≤ length entries.now }
{
    entries
        .iter()
        .filter(|entry| entry.history.holds(candidate))
        .count()
}

/// The greatest stamp of the entries, the opening one where there are none.
#[tactic(auto, using(crate::proofs::Method::latest_of_none, crate::proofs::Method::latest_of_more))]
pub fn latest_of(entries: &[Sealed]) -> Stamp
    ensures { result ≡ latest_of (histories entries.now) }
{
    let mut latest = Stamp::opening();
    for entry in entries {
        let stamp = entry.history.last().stamp;
        if latest.is_below(&stamp) {
            latest = stamp;
        }
    }
    latest
}
