ghost use Rattle.std.specs.Prelude.{◌≡◌, ◌-◌, ◌^◌};

/// The most versions that a store holds, 2^63 - 1: as many as a list has places for.
pub const MOST_VERSIONS: usize = 0x7fff_ffff_ffff_ffff;

/// The limits of this crate, by their numbers.
pub fn limits_are_these()
    ensures most_versions { MOST_VERSIONS ≡ 2 ^ 63 - 1 }
{}
