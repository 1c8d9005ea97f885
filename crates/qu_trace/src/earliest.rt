//! The earlier of two events of a run.
ghost use Rattle.std.specs.Prelude.{◌≡◌};
ghost use Rattle.qu_trace.specs.Earliest.{earlier_of};

/// The earlier of two events, where there are two.
pub fn earlier(first: Option<u64>, second: Option<u64>) -> Option<u64>
    ensures { result ≡ earlier_of first second }
{
    match (first, second) {
        (Some(first), Some(second)) => Some(first.min(second)),
        (Some(first), None) => Some(first),
        (None, second) => second,
    }
}
