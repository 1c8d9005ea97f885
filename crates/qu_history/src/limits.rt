ghost use Rattle.std.specs.Prelude.{◌≡◌};

/// The most candidates of a history, the opening candidate among them.
pub const HISTORY_LIMIT: usize = 1024;

/// The most objects in one set of histories.
pub const OBJECTS_LIMIT: usize = 8;

/// The limits of this crate, by their numbers.
pub fn limits_are_these()
    ensures history_limit { HISTORY_LIMIT ≡ 1024 }
    ensures objects_limit { OBJECTS_LIMIT ≡ 8 }
{}
