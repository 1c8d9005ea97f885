ghost use Rattle.std.specs.Prelude.{◌≡◌, ◌∷◌, [], ◌++◌, ◌<◌, ◌≤◌, ◌^◌, length, map, IfOk, OnOk, string_bytes};
ghost use Rattle.qu_print.specs.Lines.{lines_text};
ghost use Rattle.qu_listed.specs.Digests.{short_name, route_text, digest_text, last_text, told_line, sent_at, sent_from, numbered_lines, digests_text, letter_bytes_text};

use qu_base::{List, NoMemory, Party};
use qu_frames::Letter;
use qu_listed::LastWord;
use qu_notation::put_bytes_text;
use qu_trace::{Entry, Trace};
use sha2::{Digest, Sha256};
use std::alloc::Global;

/// A line for each letter of a run, by rising number: its number, its event, sender, receiver, length
/// in bytes, and the SHA-256 digest of all its bytes.
#[tactic(auto, unfolding(qu_listed::specs::Digests::digests_text))]
pub fn digests_text(alloc: Global, trace: &Trace) -> Result<List<u8>, NoMemory>
    ensures { IfOk result (λ text. text ≡ digests_text trace.now) }
{
    let mut text = String::new(alloc);
    put_lines(alloc, &mut text, LastWord::Digest, trace.entries.as_slice())?;
    Ok(List::from(text.into_bytes()))
}

/// A line for each letter as above, with all its bytes in the place of their digest, by two lower-case hexadecimal
/// digits each, or `-` where it has none.
#[tactic(auto, unfolding(qu_listed::specs::Digests::letter_bytes_text))]
pub fn bytes_text(alloc: Global, trace: &Trace) -> Result<List<u8>, NoMemory>
    ensures { IfOk result (λ text. text ≡ letter_bytes_text trace.now) }
{
    let mut text = String::new(alloc);
    put_lines(alloc, &mut text, LastWord::Bytes, trace.entries.as_slice())?;
    Ok(List::from(text.into_bytes()))
}

/// Writes the lines of all letters.
#[tactic(auto, unfolding(qu_print::specs::Lines::lines_text))]
fn put_lines(
    alloc: Global,
    text: &mut String,
    last: LastWord,
    entries: &[Entry],
) -> Result<(), NoMemory>
    ensures { OnOk result (string_bytes text.new
        ≡ string_bytes text.old ++ lines_text (numbered_lines (last_text last) 1 (sent_from 1 entries.now))) }
{
    let mut number = 1;
    for (index, entry) in entries.iter().enumerate() {
        let letters = entry.letters.as_slice();
        put_letters(alloc, text, last, number, index as u64 + 1, letters)?;
        number += count_of(letters);
    }
    Ok(())
}

/// How many letters there are. A list that is in memory has fewer than 2^63.
fn count_of(letters: &[Letter]) -> u128
    ensures value { result ≡ length letters.now }
    ensures few { result < 2 ^ 63 }
{
    letters.len() as u128
}

/// Writes the lines of the letters of an event, of which the first has this number.
#[tactic(auto, unfolding(qu_print::specs::Lines::lines_text))]
fn put_letters(
    alloc: Global,
    text: &mut String,
    last: LastWord,
    first: u128,
    event: u64,
    letters: &[Letter],
) -> Result<(), NoMemory>
    requires { first ≤ 2 ^ 127 }
    ensures { OnOk result (string_bytes text.new
        ≡ string_bytes text.old
        ++ lines_text (numbered_lines (last_text last) first (map (sent_at event) letters.now))) }
{
    for (index, letter) in letters.iter().enumerate() {
        put_letter(alloc, text, last, first + index as u128, event, letter)?;
    }
    Ok(())
}

#[tactic(auto, unfolding(qu_listed::specs::Digests::told_line))]
fn put_letter(
    alloc: Global,
    text: &mut String,
    last: LastWord,
    number: u128,
    event: u64,
    letter: &Letter,
) -> Result<(), NoMemory>
    ensures { OnOk result (string_bytes text.new
        ≡ string_bytes text.old ++ told_line (last_text last) number event letter.now ++ 10 ∷ []) }
{
    write!(text, "{number} {event} ")?;
    put_route(text, letter)?;
    put_last(alloc, text, last, letter.text.as_slice())?;
    text.push_str("\n")?;
    Ok(())
}

/// Writes sender, receiver and length of a letter.
fn put_route(text: &mut String, letter: &Letter) -> Result<(), NoMemory>
    ensures { OnOk result (string_bytes text.new ≡ string_bytes text.old ++ route_text letter.now) }
{
    let (from, to) = (letter.from, letter.to);
    put_short_name(text, from)?;
    put_short_name(text, to)?;
    let length = letter.text.len();
    write!(text, "{length} ")?;
    Ok(())
}

/// Writes what a line tells last of the text of its letter.
fn put_last(alloc: Global, text: &mut String, last: LastWord, letter: &[u8]) -> Result<(), NoMemory>
    ensures { OnOk result (string_bytes text.new ≡ string_bytes text.old ++ last_text last letter.now) }
{
    match last {
        LastWord::Digest => put_digest(alloc, text, letter),
        LastWord::Bytes => put_bytes_text(text, letter),
    }
}

/// Writes the SHA-256 digest of a text in lower-case hexadecimal.
#[tactic(auto, unfolding(qu_listed::specs::Digests::digest_text))]
fn put_digest(alloc: Global, text: &mut String, letter: &[u8]) -> Result<(), NoMemory>
    ensures { OnOk result (string_bytes text.new ≡ string_bytes text.old ++ digest_text letter.now) }
{
    let mut hasher = Sha256::new();
    hasher.update(letter);
    let digest = hex::encode(alloc, hasher.finalize())?;
    text.push_str(digest.as_str())?;
    Ok(())
}

/// Writes the short name of a party, and a space.
fn put_short_name(text: &mut String, party: Party) -> Result<(), NoMemory>
    ensures { OnOk result (string_bytes text.new ≡ string_bytes text.old ++ short_name party ++ 32 ∷ []) }
{
    match party {
        Party::Replica(me) => {
            let number = me.0;
            write!(text, "r{number} ")?;
        }
        Party::Client(me) => {
            let number = me.0;
            write!(text, "c{number} ")?;
        }
    }
    Ok(())
}
