ghost use Rattle.std.specs.Prelude.{◌≡◌};
ghost use Rattle.qu_base.specs.declared.bad_text.ReadFail.TheVariants as fail;

use super::NoMemory;
use std::alloc::{AllocError, AllocFailed};

/// What is wrong with a field of a text.
#[derive(Clone, Copy, Debug, PartialEq, Eq)]
pub enum Why {
    /// Number 17: fewer bytes remain than the field takes.
    Short,
    /// Number 18: the version or the kind of a frame is not a known one.
    Kind,
    /// Number 19: a number, a code or a count is outside its range.
    Range,
    /// Number 20: an item is not above the one before it.
    Order,
    /// Number 21: bytes follow the last field.
    Rest,
}

/// The first field of a text that could not be read: the offset of its first byte, and why.
#[derive(Clone, Copy, Debug, PartialEq, Eq)]
pub struct BadText {
    pub place: u64,
    pub why: Why,
}

/// Why a value could not be read from a text.
#[derive(Clone, Copy, Debug, PartialEq, Eq)]
pub enum ReadFail {
    Bad(BadText),
    NoMemory,
}

impl From<BadText> for ReadFail {
    ghost from_gives = { λ bad outcome. outcome ≡ fail.Bad bad };

    fn from(bad: BadText) -> ReadFail {
        ReadFail::Bad(bad)
    }
}

impl From<NoMemory> for ReadFail {
    ghost from_gives = { λ _ outcome. outcome ≡ fail.NoMemory };

    fn from(_error: NoMemory) -> ReadFail {
        ReadFail::NoMemory
    }
}

impl From<AllocError> for ReadFail {
    ghost from_gives = { λ _ outcome. outcome ≡ fail.NoMemory };

    fn from(_error: AllocError) -> ReadFail {
        ReadFail::NoMemory
    }
}

impl<T: Drop> From<AllocFailed<T>> for ReadFail {
    ghost from_gives = { λ _ outcome. outcome ≡ fail.NoMemory };

    fn from(_error: AllocFailed<T>) -> ReadFail {
        ReadFail::NoMemory
    }
}
