ghost use Rattle.std.specs.Prelude.{◌≡◌, ◌^◌};

/// The most bytes of a script, 16 MiB.
pub const SCRIPT_LIMIT: usize = 1 << 24;

/// How many bytes a read asks for at most.
pub const PIECE: usize = 4096;

/// The limits of this crate, by their numbers.
pub fn limits_are_these()
    ensures script_limit { SCRIPT_LIMIT ≡ 2 ^ 24 }
    ensures piece { PIECE ≡ 4096 }
{}
