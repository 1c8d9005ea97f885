use crate::phase::Phase;
use qu_base::NoMemory;
use qu_notation::cut_line;
use qu_script_words::{BadKind, LineFail, Words, cut_words};
use std::alloc::Global;

/// A line that is refused while a script is read.
#[derive(Clone, Copy)]
pub struct Place<'a> {
    /// The first word of the line.
    pub first: &'a [u8],
    /// The number of the word that cannot stand, from 1; none where the words are too few or too many.
    pub number: Option<usize>,
    /// That word.
    pub word: Option<&'a [u8]>,
}

/// The first place where a script is refused while it is read; none where all lines are read.
pub fn place_in<'a>(
    alloc: Global,
    live: bool,
    text: &'a [u8],
) -> Result<Option<Place<'a>>, NoMemory> {
    let mut phase = Phase::NeedsBounds;
    let mut rest = text;
    'lines: while !rest.is_empty() {
        let (line, after) = cut_line(rest);
        let words = cut_words(alloc, line)?;
        let mut left = Words::of(words.as_slice());
        match phase.read_line(alloc, live, 0, &mut left) {
            Ok(next) => phase = next,
            Err(LineFail::NoMemory) => return Err(NoMemory),
            Err(LineFail::Bad(kind)) => {
                let taken = words.len().saturating_sub(left.left());
                return Ok(place_of(words.as_slice(), taken, kind));
            }
        }
        rest = after;
    }
    Ok(None)
}

/// The place where so many words were taken: the last of them cannot stand, or the one behind them cannot be taken.
fn place_of<'a>(words: &[&'a [u8]], taken: usize, kind: BadKind) -> Option<Place<'a>> {
    let first = *words.first()?;
    let number = match kind {
        BadKind::WrongCount => None,
        BadKind::NotAscii => Some(taken.saturating_add(1)),
        _ => Some(taken),
    };
    Some(Place {
        first,
        number,
        word: word_at(words, number),
    })
}

/// The word with this number, from 1.
fn word_at<'a>(words: &[&'a [u8]], number: Option<usize>) -> Option<&'a [u8]> {
    words.get(number?.checked_sub(1)?).copied()
}
