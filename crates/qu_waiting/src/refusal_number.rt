ghost use Rattle.std.specs.Prelude.{◌≡◌, None, Some};

use super::VoteFail;

/// The replica was counted before.
pub const TWICE: u8 = 2;

impl VoteFail {
    ghost use Rattle.qu_waiting.specs.RefusalNumber.{vote_fail_number};

    /// The number by which a text names the refusal; want of memory has none.
    pub fn number(&self) -> Option<u8>
        ensures { result ≡ vote_fail_number self.now }
    {
        match self {
            VoteFail::Twice(_) => Some(TWICE),
            VoteFail::NoMemory => None,
        }
    }
}

/// The number of the refusal.
pub fn refusal_numbers_are_these()
    ensures { TWICE ≡ 2 }
{}
