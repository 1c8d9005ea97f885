ghost use Rattle.std.specs.Prelude.{◌≡◌};

/// From the round of this number on, waits grow no more.
pub const MOST_DOUBLINGS: u8 = 10;

/// The longest wait, in ticks.
pub const LONGEST_WAIT: u32 = 1 << MOST_DOUBLINGS;

/// The limits of this crate, by their numbers.
pub fn limits_are_these()
    ensures most_doublings { MOST_DOUBLINGS ≡ 10 }
    ensures longest_wait { LONGEST_WAIT ≡ 1024 }
{}
