//! The number of a command.
ghost use Rattle.std.specs.Prelude.{◌≡◌};
ghost use Rattle.qu_notation.specs.Words.{short_number, joined_number};

use crate::number::read_number;

/// How many digits a number has at most.
const MOST_DIGITS: usize = 20;

/// The number that a word writes, by few digits.
pub(crate) fn short_number(word: &[u8]) -> Option<u64>
    ensures { result ≡ short_number word.now }
{
    if word.len() > MOST_DIGITS {
        return None;
    }
    read_number(word)
}

/// The number behind the flag with which it makes one word.
#[tactic(auto, unfolding(crate::specs::Words::joined_number))]
pub(crate) fn joined_number(word: &[u8]) -> Option<u64>
    ensures { result ≡ joined_number word.now }
{
    let digits = word.strip_prefix(b"--gen=".as_slice())?;
    short_number(digits)
}
