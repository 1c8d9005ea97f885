ghost use Rattle.std.specs.Prelude.{◌≡◌, None, Some};

use super::InvokeFail;

/// An operation is under way.
pub const BUSY: u8 = 28;

impl InvokeFail {
    ghost use Rattle.qu_client.specs.RefusalNumber.{invoke_fail_number};

    /// The number by which a text names the refusal; want of memory has none.
    pub fn number(&self) -> Option<u8>
        ensures { result ≡ invoke_fail_number self.now }
    {
        match self {
            InvokeFail::Busy => Some(BUSY),
            InvokeFail::NoMemory => None,
        }
    }
}

/// The number of the refusal.
pub fn refusal_numbers_are_these()
    ensures { BUSY ≡ 28 }
{}
