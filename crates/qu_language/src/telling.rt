use super::forms::{FIRST_WORDS, form_of};
use super::place::{Place, place_in};
use super::rules::rule_of;
use qu_base::NoMemory;
use qu_script_words::Bad;
use std::alloc::Global;
use std::str;

/// So many bytes of a word are told.
const MOST_TOLD: usize = 40;

/// A line that tells what could stand where this text is no script; `live` where threads are to run it. None where
/// there is no memory for it.
pub fn hint(alloc: Global, live: bool, text: &[u8], bad: Bad) -> Option<String> {
    told(alloc, live, text, bad).ok()
}

fn told(alloc: Global, live: bool, text: &[u8], bad: Bad) -> Result<String, NoMemory> {
    let line = bad.line;
    let rule = rule_of(bad.kind);
    match place_in(alloc, live, text)? {
        Some(place) => hint_at(alloc, line, rule, &place),
        None => Ok(format!(in alloc; "line {line}: {rule}")?),
    }
}

/// Where the line is known.
fn hint_at(alloc: Global, line: u64, rule: &str, place: &Place<'_>) -> Result<String, NoMemory> {
    let told = told_word(alloc, place)?;
    let told = told.as_str();
    let form = could_stand(place);
    Ok(format!(in alloc; "line {line}{told}: {rule}; {form}")?)
}

/// Which word it is, and how it begins where it can be shown.
fn told_word(alloc: Global, place: &Place<'_>) -> Result<String, NoMemory> {
    let Some(number) = place.number else {
        return Ok(String::new(alloc));
    };
    match place.word.and_then(shown) {
        Some(word) => Ok(format!(in alloc; ", word {number} '{word}'")?),
        None => Ok(format!(in alloc; ", word {number}")?),
    }
}

/// How a word of printable characters begins.
fn shown(word: &[u8]) -> Option<&str> {
    let told = &word[..MOST_TOLD.min(word.len())];
    if !told.iter().all(u8::is_ascii_graphic) {
        return None;
    }
    str::from_utf8(told).ok()
}

/// How the line can be written, or with which words lines begin.
fn could_stand(place: &Place<'_>) -> &'static str {
    match form_of(place.first) {
        Some(form) => form,
        None => FIRST_WORDS,
    }
}
