//! Bytes as a person writes them: hexadecimal digits, names of bytes, and `WORD*N` for a word N times.

use super::no_answer::NoAnswer;
use super::texts::{counted, parted};
use std::alloc::{AllocError, Global};

/// How many times a piece stands in a block.
const BLOCK: u64 = 4096;

/// A name and the bytes for which it stands.
pub type Named<'a> = (&'a str, Vec<u8>);

/// Adds the names of lines `NAME = WORDS`. Lines that begin with `#`, and those without ` = `, are passed over.
pub fn read_names<'a>(
    alloc: Global,
    text: &'a str,
    names: &mut Vec<Named<'a>>,
) -> Result<(), NoAnswer> {
    for line in text.lines() {
        match line.split_once(" = ") {
            Some((name, words)) if !line.starts_with('#') => {
                let bytes = bytes_of(alloc, names.as_slice(), words)?;
                names.push((name, bytes))?;
            }
            _ => {}
        }
    }
    Ok(())
}

/// The bytes of all words. Behind a `#` the rest of a line is passed over.
pub fn bytes_of(alloc: Global, names: &[Named<'_>], text: &str) -> Result<Vec<u8>, NoAnswer> {
    let mut bytes = Vec::new(alloc);
    for line in text.lines() {
        let (words, _) = parted(line, "#");
        for word in words.split_whitespace() {
            put_word(alloc, names, word, &mut bytes)?;
        }
    }
    Ok(bytes)
}

fn put_word(
    alloc: Global,
    names: &[Named<'_>],
    word: &str,
    out: &mut Vec<u8>,
) -> Result<(), NoAnswer> {
    let (spelled, count) = counted(word)?;
    match named(names, spelled) {
        Some(piece) => Ok(put_times(alloc, piece, count, out)?),
        None => {
            let piece = hex::decode(alloc, spelled)?;
            Ok(put_times(alloc, piece.as_slice(), count, out)?)
        }
    }
}

/// The bytes for which a name stands.
fn named<'a>(names: &'a [Named<'_>], word: &str) -> Option<&'a [u8]> {
    for (name, bytes) in names {
        if *name == word {
            return Some(bytes.as_slice());
        }
    }
    None
}

/// A piece so many times. Where that is often, by blocks of it, since a text may have millions of bytes.
pub fn put_times(
    alloc: Global,
    piece: &[u8],
    count: u64,
    out: &mut Vec<u8>,
) -> Result<(), AllocError> {
    if count < BLOCK {
        return put_each(piece, count, out);
    }
    let mut block = Vec::new(alloc);
    put_each(piece, BLOCK, &mut block)?;
    put_each(block.as_slice(), count / BLOCK, out)?;
    put_each(piece, count % BLOCK, out)
}

fn put_each(piece: &[u8], count: u64, out: &mut Vec<u8>) -> Result<(), AllocError> {
    for _ in 0..count {
        out.extend_from_slice(piece)?;
    }
    Ok(())
}
