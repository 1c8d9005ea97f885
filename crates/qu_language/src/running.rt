//! What the run of a script refuses.

use super::rules::rule_of;
use crate::line::{Line, Script};
use qu_base::NoMemory;
use qu_script_words::{Bad, BadKind};
use qu_trace::Trace;
use std::alloc::Global;

/// A line that tells why a line of a script cannot be behind what happened in its run. None where there is no memory
/// for it.
pub fn run_hint(alloc: Global, script: &Script, happened: &Trace, bad: Bad) -> Option<String> {
    told(alloc, script, happened, bad).ok()
}

fn told(alloc: Global, script: &Script, happened: &Trace, bad: Bad) -> Result<String, NoMemory> {
    let line = bad.line;
    let rule = rule_of(bad.kind);
    let sent = letters_in(happened);
    match missing_letter(script, sent, bad) {
        Some(letter) => {
            Ok(format!(in alloc;
                "line {line}: there is no letter {letter}, {sent} were sent so far; {rule}"
            )?)
        }
        None => Ok(format!(in alloc; "line {line}: {rule}")?),
    }
}

/// How many letters were sent.
fn letters_in(happened: &Trace) -> u64 {
    let mut sent: u64 = 0;
    for entry in &happened.entries {
        sent = sent.saturating_add(entry.letters.len() as u64);
    }
    sent
}

/// The first letter that was not sent of those that the refused line delivers, where it is refused for this.
fn missing_letter(script: &Script, sent: u64, bad: Bad) -> Option<u64> {
    if bad.kind != BadKind::NoSuchLetter {
        return None;
    }
    for (number, line) in &script.lines {
        if *number == bad.line {
            return missing_in(line, sent);
        }
    }
    None
}

fn missing_in(line: &Line, sent: u64) -> Option<u64> {
    let Line::Deliver(letters) = line else {
        return None;
    };
    for letter in letters {
        if *letter == 0 || *letter > sent {
            return Some(*letter);
        }
    }
    None
}
