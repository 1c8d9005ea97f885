//! The program `qu-letters`: its words, its standard input and its standard output.
#![tactic(auto)]

use qu_cli_letters::qu_letters;
use qu_io::{StdSink, StdSource};
use std::env;
use std::io::Eprint;
use std::process::ExitCode;
use std::rt::Env;

fn main(rt: HostRuntime) -> ExitCode {
    let alloc = rt.alloc();
    let mut input = StdSource::new(rt.stdin());
    let mut output = StdSink::new(rt.stdout());
    let report = match words(&rt) {
        Some(words) => qu_letters(alloc, words.as_slice(), &mut input, &mut output),
        // Words that cannot be had are wrong, as the empty word is.
        None => qu_letters(alloc, &[String::new(alloc)], &mut input, &mut output),
    };
    if let Some(hint) = &report.hint {
        tell(&rt, hint.as_str());
    }
    ExitCode::from(report.status)
}

/// Tells this on standard error, as far as it takes it.
fn tell(rt: &impl Eprint, words: &str) {
    match rt.eprintln(words) {
        Ok(()) | Err(_) => {}
    }
}

/// The words behind the program's name. None where they cannot be had.
fn words(rt: &(impl Env + AllocGlobal)) -> Option<Vec<String>> {
    let args = env::args(rt).ok()?;
    args.skip(1).collect(rt.alloc()).ok()
}
