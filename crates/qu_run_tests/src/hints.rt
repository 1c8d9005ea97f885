//! What is told for people where a script is refused: which word it is, and what could stand there.

use qu_base::List;
use qu_cli::qu_alone;
use qu_io::{MemSink, MemSource};
use qu_testing::holds;
use std::alloc::Global;
use std::test::Fail;

const SETUP: &str = "bounds 1\nseed 7\nclients 1\nobject 0 counter\n";

/// Whether a script is refused with this hint; with none, whether it is not refused.
fn hints(alloc: Global, script: &str, wanted: Option<&'static str>) -> Result<(), Fail> {
    let words = [String::from_str(alloc, "sim")?];
    let script = List::from_clones(alloc, script.as_bytes())?;
    let mut input = MemSource::new(script, 1_000, List::new(alloc));
    let mut output = MemSink::new(alloc, 1_000, List::new(alloc));
    let report = qu_alone(alloc, &words, &mut input, &mut output);
    match (&report.hint, wanted) {
        (Some(hint), Some(wanted)) => holds(hint.as_str() == wanted, wanted),
        (None, None) => holds(report.status == 0, "it is done"),
        (_, _) => holds(
            false,
            "there is a hint where a script is refused, and nowhere else",
        ),
    }
}

/// Whether a script whose setup is followed by this line is refused with this hint.
fn line_hints(alloc: Global, line: &str, wanted: &'static str) -> Result<(), Fail> {
    let script = format!(in alloc; "{SETUP}{line}\n")?;
    hints(alloc, script.as_str(), Some(wanted))
}

#[test]
fn words_that_cannot_stand(rt: HostRuntime) -> Result<(), Fail> {
    let alloc = rt.alloc();
    line_hints(
        alloc,
        "tick one",
        "line 5, word 2 'one': a number is decimal digits, below 2^64; \
        tick C or tick C N, N from 1 to 20000",
    )?;
    line_hints(
        alloc,
        "hold 0 6",
        "line 5, word 3 '6': a party of the setup stands here, which is correct where it has to act; \
        hold R R ..",
    )?;
    line_hints(
        alloc,
        "wake 1 \x1b",
        "line 5, word 3: words have printable ASCII characters alone; wake C",
    )
}

#[test]
fn lines_that_cannot_stand(rt: HostRuntime) -> Result<(), Fail> {
    let alloc = rt.alloc();
    line_hints(
        alloc,
        "lose 1",
        "line 5: the line has too few words or too many; lose",
    )?;
    line_hints(
        alloc,
        "stop",
        "line 5, word 1 'stop': a word from a fixed list stands here; \
        bounds, seed, clients, object, faulty, call, deliver, flow, tick, wake, inject, fake, \
        hold, free, lose",
    )?;
    hints(
        alloc,
        "bounds 1\n",
        Some("line 2: behind bounds stands seed S"),
    )
}

#[test]
fn what_the_run_refuses(rt: HostRuntime) -> Result<(), Fail> {
    let alloc = rt.alloc();
    line_hints(
        alloc,
        "deliver 1",
        "line 5: there is no letter 1, 0 were sent so far; \
        letters have numbers from 1, in the order in which they were sent",
    )?;
    line_hints(
        alloc,
        "call 1 read 0\ndeliver 1 0 9",
        "line 6: there is no letter 0, 7 were sent so far; \
        letters have numbers from 1, in the order in which they were sent",
    )?;
    line_hints(
        alloc,
        "call 1 read 0\ndeliver 7\n",
        "line 6: there is no letter 7, 6 were sent so far; \
        letters have numbers from 1, in the order in which they were sent",
    )?;
    line_hints(
        alloc,
        "call 1 read 0\ncall 1 read 0",
        "line 6: the client has an operation under way",
    )?;
    hints(alloc, SETUP, None)
}
