ghost use Rattle.std.specs.Prelude.{◌≡◌};
ghost use Rattle.qu_script_words.specs.Meaning.{fail_at};
ghost use Rattle.qu_script_words.specs.declared.bad.LineFail.TheVariants as line_fails;
ghost use Rattle.qu_script_words.specs.declared.bad.ScriptFail.TheVariants as fails;

use qu_base::NoMemory;
use std::alloc::{AllocError, AllocFailed};

/// What is wrong with a script.
#[derive(Clone, Copy, Debug, PartialEq, Eq)]
pub enum BadKind {
    /// It has more than 16 MiB.
    TooLong,
    /// A word has a byte that is no printable ASCII character.
    NotAscii,
    /// Another line, or the end, stands where `bounds` has to.
    ExpectedBounds,
    /// Another line, or the end, stands where `seed` has to.
    ExpectedSeed,
    /// Another line, or the end, stands where `clients` has to.
    ExpectedClients,
    /// Another line, or the end, stands where the first `object` has to.
    ExpectedObject,
    /// A setup line stands after its place, objects have a gap, or faulty parties do not rise.
    OutOfOrder,
    /// A word that has to be one of a fixed list is not.
    UnknownWord,
    /// A line has too few words or too many.
    WrongCount,
    /// A word is no number below 2^64.
    BadNumber,
    /// A word is no hexadecimal digits, two for each byte, and no `-`.
    BadHex,
    /// A word is no name.
    BadName,
    /// A number is outside its range, a word has more bytes than it may, or more replicas are faulty than may lie.
    OverLimit,
    /// A party is not of the setup, or is faulty where a correct one has to stand.
    NoSuchActor,
    /// An object is not of the setup.
    NoSuchObject,
    /// The line cannot stand where threads run the script.
    NotInLive,
    /// In the run, no letter has the number that the line names (number 29).
    NoSuchLetter,
    /// In the run, the client that the line calls has an operation under way (number 28).
    Busy,
    /// In the run, the client for which the line makes a reply has sent no request, or the replica that
    /// the line echoes has sent the client no reply (number 32).
    NoRequest,
    /// In the run, the line would make one event more than a run may have (number 31).
    TooManyEvents,
    /// In the run, the letters before the line have as many bytes as they may (number 33).
    TooManyBytes,
}

/// Why a script is refused: the line that cannot stand, from 1, and what is wrong with it.
#[derive(Clone, Copy, Debug, PartialEq, Eq)]
pub struct Bad {
    pub line: u64,
    pub kind: BadKind,
}

/// Why a line is not read.
#[derive(Clone, Copy, Debug, PartialEq, Eq)]
pub enum LineFail {
    Bad(BadKind),
    NoMemory,
}

impl LineFail {
    /// The fail of the script whose line with this number is not read.
    pub fn at(self, line: u64) -> ScriptFail
        ensures { result ≡ fail_at line self }
    {
        match self {
            LineFail::Bad(kind) => ScriptFail::Bad(Bad { line, kind }),
            LineFail::NoMemory => ScriptFail::NoMemory,
        }
    }
}

impl From<BadKind> for LineFail {
    ghost from_gives = { λ kind outcome. outcome ≡ line_fails.Bad kind };

    fn from(kind: BadKind) -> LineFail {
        LineFail::Bad(kind)
    }
}

impl From<NoMemory> for LineFail {
    ghost from_gives = { λ _ outcome. outcome ≡ line_fails.NoMemory };

    fn from(_error: NoMemory) -> LineFail {
        LineFail::NoMemory
    }
}

impl From<AllocError> for LineFail {
    ghost from_gives = { λ _ outcome. outcome ≡ line_fails.NoMemory };

    fn from(_error: AllocError) -> LineFail {
        LineFail::NoMemory
    }
}

impl<T: Drop> From<AllocFailed<T>> for LineFail {
    ghost from_gives = { λ _ outcome. outcome ≡ line_fails.NoMemory };

    fn from(_error: AllocFailed<T>) -> LineFail {
        LineFail::NoMemory
    }
}

/// Why a script has no run.
#[derive(Clone, Copy, Debug, PartialEq, Eq)]
pub enum ScriptFail {
    Bad(Bad),
    NoMemory,
}

impl From<NoMemory> for ScriptFail {
    ghost from_gives = { λ _ outcome. outcome ≡ fails.NoMemory };

    fn from(_error: NoMemory) -> ScriptFail {
        ScriptFail::NoMemory
    }
}

impl From<AllocError> for ScriptFail {
    ghost from_gives = { λ _ outcome. outcome ≡ fails.NoMemory };

    fn from(_error: AllocError) -> ScriptFail {
        ScriptFail::NoMemory
    }
}

impl<T: Drop> From<AllocFailed<T>> for ScriptFail {
    ghost from_gives = { λ _ outcome. outcome ≡ fails.NoMemory };

    fn from(_error: AllocFailed<T>) -> ScriptFail {
        ScriptFail::NoMemory
    }
}
