//! What cases write in short, and pages set off: words with spaces, words that stand many times, lines.

use super::names::put_times;
use super::no_answer::NoAnswer;
use super::told::Told;
use std::alloc::{AllocError, Global};

/// The text before the first of these words in it, and the text behind; the whole and nothing where it has none.
pub fn parted<'a>(text: &'a str, by: &str) -> (&'a str, &'a str) {
    text.split_once(by).unwrap_or((text, ""))
}

/// The word of a word `WORD*N`, and N; once where there is no number.
pub fn counted(word: &str) -> Result<(&str, u64), NoAnswer> {
    match word.split_once('*') {
        Some((word, count)) => Ok((word, number(count)?)),
        None => Ok((word, 1)),
    }
}

pub fn number(word: &str) -> Result<u64, NoAnswer> {
    word.parse::<u64>().or(Err(NoAnswer::Number))
}

/// The words from a place on; `_` is a space in a word.
pub fn words_of(alloc: Global, words: &str, first: usize) -> Result<Vec<String>, AllocError> {
    let mut all = Vec::new(alloc);
    for word in words.split_whitespace().skip(first) {
        let word = word.replace(alloc, '_', " ")?;
        all.push(word)?;
    }
    Ok(all)
}

/// A script where a word `WORD*N` is the word N times.
pub fn repeated(alloc: Global, lines: &str) -> Result<Vec<u8>, NoAnswer> {
    let mut script = Vec::new(alloc);
    for line in lines.lines() {
        for word in line.split(' ') {
            put_word(alloc, word, &mut script)?;
        }
        // In the place of the last space.
        script.pop();
        script.push(b'\n')?;
    }
    Ok(script)
}

/// The word each time that it stands, and a space behind it.
fn put_word(alloc: Global, word: &str, out: &mut Vec<u8>) -> Result<(), NoAnswer> {
    let (word, count) = counted(word)?;
    let spaced = format!(in alloc; "{word} ")?;
    Ok(put_times(alloc, spaced.as_bytes(), count, out)?)
}

/// The lines that are set off, without the spaces before them.
pub fn set_off(alloc: Global, page: &str) -> Result<String, AllocError> {
    let mut lines = Told::new(alloc);
    for line in page.lines() {
        if let Some(line) = line.strip_prefix("    ") {
            lines.put(line);
            lines.put("\n");
        }
    }
    lines.text()
}
