//! The scripts of numbers.

use super::case::Case;
use super::forms::put_hashed;
use super::no_answer::NoAnswer;
use super::texts::number;
use super::told::Told;
use qu_gen::gen_script;
use std::alloc::Global;

/// `generated N LINE ..`: how many lines the script of N has, its length and its SHA-256, and these lines of it.
pub fn answer_generated(alloc: Global, case: &Case<'_>, out: &mut Told) -> Result<(), NoAnswer> {
    let script = gen_script(alloc, case.number(0)?)?;
    put_script(script.as_slice(), case, out)
}

fn put_script(script: &[u8], case: &Case<'_>, out: &mut Told) -> Result<(), NoAnswer> {
    let text = str::from_utf8(script).or(Err(NoAnswer::Bytes))?;
    out.put_number("", text.lines().count() as u64);
    out.put(" lines, ");
    put_hashed(script, out);
    for word in case.words.split_whitespace().skip(1) {
        put_line(text, number(word)?, out);
    }
    Ok(())
}

/// The line of a text that has this number, from 1 on.
fn put_line(text: &str, number: u64, out: &mut Told) {
    let line = text.lines().nth((number as usize).saturating_sub(1));
    out.put_number("\n", number);
    out.put(" ");
    out.put(line.unwrap_or("no line"));
}
