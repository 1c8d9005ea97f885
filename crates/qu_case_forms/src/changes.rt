//! Bytes that are read as they are, cut, and changed.

use super::names::{Named, bytes_of};
use super::no_answer::NoAnswer;
use super::parts::{Found, Part};
use super::texts::{number, parted};
use super::told::Told;
use qu_base::{BadText, Outbytes, ReadFail, Why};
use std::alloc::{AllocError, Global};

/// What a text is read as, or why and where it is refused.
pub fn decode(alloc: Global, part: Part, text: &[u8], out: &mut Told) {
    match part.read(alloc, text) {
        Ok(found) => put_found(alloc, &found, text, out),
        Err(ReadFail::Bad(bad)) => write!(out, "{:?} at {}", bad.why, bad.place),
        Err(ReadFail::NoMemory) => out.refuse(),
    }
}

fn put_found(alloc: Global, found: &Found, text: &[u8], out: &mut Told) {
    let mut spelled = Outbytes::new(alloc);
    if found.write(alloc, &mut spelled).is_err() {
        return out.refuse();
    }
    let spelled = spelled.done();
    if !text.starts_with(spelled.as_slice()) {
        return out.put("not as it was read");
    }
    found.put(out);
    if spelled.len() < text.len() {
        out.put_number(" to ", spelled.len() as u64);
    }
}

/// What a text is read as, at which places its cuts are short, and what a byte behind it makes of it.
pub fn exact(alloc: Global, part: Part, text: &[u8], out: &mut Told) -> Result<(), AllocError> {
    let longer = [text, &[0]].concat(alloc)?;
    decode(alloc, part, text, out);
    out.put("\nshort at");
    put_cuts(alloc, part, text, out);
    out.put("\nand a byte: ");
    decode(alloc, part, longer.as_slice(), out);
    Ok(())
}

/// The place where each cut of a text is short, each told once.
fn put_cuts(alloc: Global, part: Part, text: &[u8], out: &mut Told) {
    let mut last = None;
    for cut in 0..text.len() {
        let found = short_at(alloc, part, &text[..cut]);
        if found != last || found.is_none() {
            put_cut(cut as u64, found, out);
        }
        last = found;
    }
}

/// The place where a cut is short: behind the cut's length, where it is not the cut itself.
fn put_cut(cut: u64, found: Option<u64>, out: &mut Told) {
    match found {
        Some(place) if place == cut => out.put_number(" ", place),
        Some(place) => {
            out.put_number(" ", cut);
            out.put_number(":", place);
        }
        None => {
            out.put_number(" ", cut);
            out.put(":not");
        }
    }
}

/// Where a text is short; none where it is read or refused otherwise.
fn short_at(alloc: Global, part: Part, text: &[u8]) -> Option<u64> {
    match part.read(alloc, text) {
        Err(
            ReadFail::Bad(
                BadText {
                    place,
                    why: Why::Short,
                },
            ),
        ) => Some(place),
        _ => None,
    }
}

/// The answer of `decode` to the text with other bytes at a place: a line `at PLACE BYTES` each, or
/// `at PLACE each` for each byte.
pub fn changes(
    alloc: Global,
    names: &[Named<'_>],
    part: Part,
    lines: &str,
    text: &[u8],
    out: &mut Told,
) -> Result<(), NoAnswer> {
    decode(alloc, part, text, out);
    for line in lines.split("\nat ").skip(1) {
        put_change(alloc, names, part, line, text, out)?;
    }
    Ok(())
}

fn put_change(
    alloc: Global,
    names: &[Named<'_>],
    part: Part,
    line: &str,
    text: &[u8],
    out: &mut Told,
) -> Result<(), NoAnswer> {
    let (place, words) = parted(line, " ");
    let at = number(place)?;
    let words = words.trim();
    if words == "each" {
        return Ok(each_byte(alloc, part, text, at, out)?);
    }
    let bytes = bytes_of(alloc, names, words)?;
    out.put_number("\n", at);
    out.put(" ");
    out.put(words);
    out.put(": ");
    Ok(decode_changed(alloc, part, text, at, bytes.as_slice(), out)?)
}

/// The answers to the text with each byte at a place, like ones in a row told once.
fn each_byte(
    alloc: Global,
    part: Part,
    text: &[u8],
    at: u64,
    out: &mut Told,
) -> Result<(), AllocError> {
    let mut last = String::new(alloc);
    for byte in 0..=255 {
        let mut answer = Told::new(alloc);
        decode_changed(alloc, part, text, at, &[byte], &mut answer)?;
        let answer = answer.text()?;
        if answer != last {
            out.put_number("\n", at);
            out.put(" from ");
            out.put_hex(&[byte]);
            out.put(": ");
            out.put(answer.as_str());
        }
        last = answer;
    }
    Ok(())
}

/// The answer to the text with these bytes from a place on.
fn decode_changed(
    alloc: Global,
    part: Part,
    text: &[u8],
    at: u64,
    bytes: &[u8],
    out: &mut Told,
) -> Result<(), AllocError> {
    let mut other = text.to_vec(alloc)?;
    for (byte, new) in other.iter_mut().skip(at as usize).zip(bytes) {
        *byte = *new;
    }
    decode(alloc, part, other.as_slice(), out);
    Ok(())
}
