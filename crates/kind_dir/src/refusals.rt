ghost use Rattle.std.specs.Prelude.{◌≡◌};

/// Number 6: the name is there already.
pub const EXISTS: u8 = 6;

/// Number 7: the name is not there.
pub const MISSING: u8 = 7;

/// Number 8: nothing may have this name.
pub const BAD_NAME: u8 = 8;

/// Number 9: there are `ENTRIES_LIMIT` entries already.
pub const FULL: u8 = 9;

/// The numbers of the refusals.
pub fn refusals_are_these()
    ensures exists { EXISTS ≡ 6 }
    ensures missing { MISSING ≡ 7 }
    ensures bad_name { BAD_NAME ≡ 8 }
    ensures full { FULL ≡ 9 }
{}
