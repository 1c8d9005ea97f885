ghost use Rattle.std.specs.Prelude.{◌≡◌, None, Some};

use super::WorldFail;
use qu_client::BUSY;

/// No letter has the number.
pub const NO_SUCH_LETTER: u8 = 29;

/// The party is not of the setup, or is a faulty client that is called or ticked.
pub const NO_SUCH_ACTOR: u8 = 30;

/// The run has as many events as it may.
pub const TOO_MANY_EVENTS: u8 = 31;

/// The letters that were sent have as many bytes as they may.
pub const TOO_MANY_BYTES: u8 = 33;

impl WorldFail {
    ghost use Rattle.qu_world.specs.RefusalNumber.{world_fail_number};

    /// The number by which a text names the refusal; want of memory has none.
    pub fn number(&self) -> Option<u8>
        ensures { result ≡ world_fail_number self.now }
    {
        match self {
            WorldFail::NoSuchLetter(_) => Some(NO_SUCH_LETTER),
            WorldFail::NoSuchActor(_) => Some(NO_SUCH_ACTOR),
            WorldFail::Busy => Some(BUSY),
            WorldFail::TooManyEvents => Some(TOO_MANY_EVENTS),
            WorldFail::TooManyBytes => Some(TOO_MANY_BYTES),
            WorldFail::NoMemory => None,
        }
    }
}

/// The numbers of the refusals that are not a client's.
pub fn refusal_numbers_are_these()
    ensures no_such_letter { NO_SUCH_LETTER ≡ 29 }
    ensures no_such_actor { NO_SUCH_ACTOR ≡ 30 }
    ensures too_many_events { TOO_MANY_EVENTS ≡ 31 }
    ensures too_many_bytes { TOO_MANY_BYTES ≡ 33 }
{}
