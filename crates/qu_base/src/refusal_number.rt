ghost use Rattle.std.specs.Prelude.{◌≡◌};
ghost use Rattle.qu_base.specs.RefusalNumber.{bad_bounds_number, why_number, read_fail_number};

use super::{BadBounds, ReadFail, Why};

/// The number of liars is outside its range.
pub const OUT_OF_RANGE: u8 = 1;

/// Fewer bytes remain than the field takes.
pub const SHORT: u8 = 17;

/// The version or the kind of a frame is not a known one.
pub const UNKNOWN_KIND: u8 = 18;

/// A number, a code or a count is outside its range.
pub const RANGE: u8 = 19;

/// An item is not above the one before it.
pub const ORDER: u8 = 20;

/// Bytes follow the last field.
pub const REST: u8 = 21;

impl BadBounds {
    /// The number by which a text names the refusal.
    pub fn number(&self) -> u8
        ensures { result ≡ bad_bounds_number self.now }
    {
        match self {
            BadBounds::OutOfRange(_) => OUT_OF_RANGE,
        }
    }
}

impl Why {
    /// The number by which a text names what is wrong with a field.
    pub fn number(&self) -> u8
        ensures { result ≡ why_number self.now }
    {
        match self {
            Why::Short => SHORT,
            Why::Kind => UNKNOWN_KIND,
            Why::Range => RANGE,
            Why::Order => ORDER,
            Why::Rest => REST,
        }
    }
}

impl ReadFail {
    /// The number by which a text names the refusal; want of memory has none.
    pub fn number(&self) -> Option<u8>
        ensures { result ≡ read_fail_number self.now }
    {
        match self {
            ReadFail::Bad(bad) => Some(bad.why.number()),
            ReadFail::NoMemory => None,
        }
    }
}

/// The numbers of the refusals.
pub fn refusal_numbers_are_these()
    ensures out_of_range { OUT_OF_RANGE ≡ 1 }
    ensures short { SHORT ≡ 17 }
    ensures unknown_kind { UNKNOWN_KIND ≡ 18 }
    ensures range { RANGE ≡ 19 }
    ensures order { ORDER ≡ 20 }
    ensures rest { REST ≡ 21 }
{}
