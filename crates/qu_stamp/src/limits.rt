ghost use Rattle.std.specs.Prelude.{◌≡◌, ◌^◌};

/// The greatest time of a stamp, 2^62.
pub const LAST_TIME: u64 = 1 << 62;

/// The limit of this crate, by its number.
pub fn limits_are_these()
    ensures { LAST_TIME ≡ 2 ^ 62 }
{}
