ghost use Rattle.std.specs.Prelude.{◌≡◌};

/// The most ticks of one line.
pub const MOST_TICKS: u64 = 20_000;

/// The most calls of a script for threads.
pub const MOST_CALLS: usize = 1_000;

/// The limits of this crate, by their numbers.
pub fn limits_are_these()
    ensures most_ticks { MOST_TICKS ≡ 20000 }
    ensures most_calls { MOST_CALLS ≡ 1000 }
{}
