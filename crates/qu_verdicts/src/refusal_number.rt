ghost use Rattle.std.specs.Prelude.{◌≡◌};
ghost use Rattle.qu_verdicts.specs.RefusalNumber.{refusal_number};

use super::Refusal;

/// The history of the object is full.
pub const HISTORY_FULL: u8 = 11;

/// Too few entries of the object are shown.
pub const THIN: u8 = 13;

/// More of the object has to be shown.
pub const NEEDS: u8 = 15;

/// The object's version has a greater link to the target than a copy may have.
pub const STALE: u8 = 16;

/// A later candidate of the object was accepted.
pub const NOT_CURRENT: u8 = 22;

/// The object is of another class than METHOD.
pub const NOT_METHOD: u8 = 23;

/// A number at least as high was used on the object.
pub const SPENT: u8 = 24;

/// The times of the object are spent.
pub const TIME_SPENT: u8 = 25;

/// There is no such object.
pub const UNKNOWN_OBJECT: u8 = 26;

/// There is nothing to repair of the object.
pub const SOUND: u8 = 27;

impl Refusal {
    /// The number by which a text names the refusal.
    pub fn number(&self) -> u8
        ensures { result ≡ refusal_number self.now }
    {
        match self {
            Refusal::HistoryFull(_) => HISTORY_FULL,
            Refusal::Thin(_) => THIN,
            Refusal::Needs(_) => NEEDS,
            Refusal::Stale(_) => STALE,
            Refusal::NotCurrent(..) => NOT_CURRENT,
            Refusal::NotMethod(..) => NOT_METHOD,
            Refusal::Spent(..) => SPENT,
            Refusal::TimeSpent(_) => TIME_SPENT,
            Refusal::UnknownObject(_) => UNKNOWN_OBJECT,
            Refusal::Sound(_) => SOUND,
        }
    }
}

/// The numbers of the refusals.
pub fn refusal_numbers_are_these()
    ensures history_full { HISTORY_FULL ≡ 11 }
    ensures thin { THIN ≡ 13 }
    ensures needs { NEEDS ≡ 15 }
    ensures stale { STALE ≡ 16 }
    ensures not_current { NOT_CURRENT ≡ 22 }
    ensures not_method { NOT_METHOD ≡ 23 }
    ensures spent { SPENT ≡ 24 }
    ensures time_spent { TIME_SPENT ≡ 25 }
    ensures unknown_object { UNKNOWN_OBJECT ≡ 26 }
    ensures sound { SOUND ≡ 27 }
{}
