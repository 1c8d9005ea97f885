//! The program `qu`: its words, its standard input and its standard output.
#![tactic(auto)]

use qu_cli::qu;
use qu_io::{StdSink, StdSource};
use qu_live::OpenGate;
use std::env;
use std::io::Eprint;
use std::process::ExitCode;
use std::rt::Env;

fn main(rt: HostRuntime) -> ExitCode {
    let words = words(&rt);
    let mut input = StdSource::new(rt.stdin());
    let mut output = StdSink::new(rt.stdout());
    let report = qu(
        &rt,
        rt.alloc(),
        words.as_slice(),
        &mut input,
        &mut output,
        &OpenGate,
    );
    if let Some(hint) = &report.hint {
        tell(&rt, hint.as_str());
    }
    ExitCode::from(report.status)
}

/// Tells this on standard error, as far as it takes it.
fn tell(rt: &impl Eprint, words: &str) {
    match rt.eprintln(words) {
        Ok(()) | Err(_) => {}
    }
}

/// The words behind the program's name. Where they cannot be had there are none, and so they are wrong.
fn words(rt: &(impl Env + AllocGlobal)) -> Vec<String> {
    let Ok(args) = env::args(rt) else {
        return Vec::new(rt.alloc());
    };
    match args.skip(1).collect(rt.alloc()) {
        Ok(words) => words,
        Err(_) => Vec::new(rt.alloc()),
    }
}
