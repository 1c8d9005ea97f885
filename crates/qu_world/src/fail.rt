ghost use Rattle.std.specs.Prelude.{◌≡◌, ◌^◌};
ghost use Rattle.qu_world.specs.declared.fail.WorldFail.TheVariants as fails;

use qu_base::{NoMemory, Party};

/// The most events of a run that is made by `World::apply`.
pub const EVENT_LIMIT: usize = 20_000;

/// The most bytes of the letters of a run that is made by `World::apply`, 2^31: at so many no event happens any more.
pub const BYTE_LIMIT: u128 = 1 << 31;

/// The limits of this crate, by their numbers.
pub fn limits_are_these()
    ensures event_limit { EVENT_LIMIT ≡ 20000 }
    ensures byte_limit { BYTE_LIMIT ≡ 2 ^ 31 }
{}

/// Why an event does not happen. The world is as before.
#[derive(Clone, Copy, Debug, PartialEq, Eq)]
pub enum WorldFail {
    /// Number 29: no letter has this number, which is told.
    NoSuchLetter(u64),
    /// Number 30: this party is not of the setup, or it is a faulty client that is called or ticked.
    NoSuchActor(Party),
    /// Number 28: the client has an operation under way.
    Busy,
    /// Number 31: the run has as many events as it may.
    TooManyEvents,
    /// Number 33: the letters that were sent have as many bytes as they may.
    TooManyBytes,
    NoMemory,
}

impl From<NoMemory> for WorldFail {
    ghost from_gives = { λ _ outcome. outcome ≡ fails.NoMemory };

    fn from(_error: NoMemory) -> WorldFail {
        WorldFail::NoMemory
    }
}
