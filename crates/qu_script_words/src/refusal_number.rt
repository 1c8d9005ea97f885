ghost use Rattle.std.specs.Prelude.{◌≡◌, None, Some};

use super::BadKind;

/// The client that the line calls has an operation under way.
pub const BUSY: u8 = 28;

/// No letter has the number that the line names.
pub const NO_SUCH_LETTER: u8 = 29;

/// The line would make one event more than a run may have.
pub const TOO_MANY_EVENTS: u8 = 31;

/// There is no request to reply to, or no reply to echo.
pub const NO_REQUEST: u8 = 32;

/// The letters before the line have as many bytes as they may.
pub const TOO_MANY_BYTES: u8 = 33;

impl BadKind {
    ghost use Rattle.qu_script_words.specs.RefusalNumber.{bad_kind_number};

    /// The number by which a text names what is wrong with a line in the run. What is wrong before that has none.
    pub fn number(&self) -> Option<u8>
        ensures { result ≡ bad_kind_number self.now }
    {
        match self {
            BadKind::NoSuchLetter => Some(NO_SUCH_LETTER),
            BadKind::Busy => Some(BUSY),
            BadKind::NoRequest => Some(NO_REQUEST),
            BadKind::TooManyEvents => Some(TOO_MANY_EVENTS),
            BadKind::TooManyBytes => Some(TOO_MANY_BYTES),
            _ => None,
        }
    }
}

/// The numbers of the refusals.
pub fn refusal_numbers_are_these()
    ensures busy { BUSY ≡ 28 }
    ensures no_such_letter { NO_SUCH_LETTER ≡ 29 }
    ensures too_many_events { TOO_MANY_EVENTS ≡ 31 }
    ensures no_request { NO_REQUEST ≡ 32 }
    ensures too_many_bytes { TOO_MANY_BYTES ≡ 33 }
{}
