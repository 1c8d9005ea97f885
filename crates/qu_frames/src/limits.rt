ghost use Rattle.std.specs.Prelude.{◌≡◌, ◌^◌};

/// The most bytes of a frame, 2^25.
pub const TEXT_LIMIT: usize = 1 << 25;

/// Rounds of a request are counted from 1 to this.
pub const LAST_ROUND: u8 = 64;

/// The most entries of which a reply says that they were left out.
pub const CULLED_LIMIT: u8 = 128;

/// The limits of this crate, by their numbers.
pub fn limits_are_these()
    ensures text_limit { TEXT_LIMIT ≡ 2 ^ 25 }
    ensures last_round { LAST_ROUND ≡ 64 }
    ensures culled_limit { CULLED_LIMIT ≡ 128 }
{}
