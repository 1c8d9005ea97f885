//! Runs on threads: what `qu` writes for the word `live`.

use qu_base::List;
use qu_cli::{qu, qu_alone};
use qu_io::{MemSink, MemSource};
use qu_live::OpenGate;
use qu_testing::holds;
use std::alloc::Global;
use std::sync::Wait;
use std::test::Fail;
use std::thread::Threads;

const SETUP: &str = "bounds 1\nseed 7\nclients 1\nobject 0 counter\n";

const CALLS: &str = "call 1 add 0 5\ncall 1 add 0 2\n";

/// What `qu sim` writes where each of the two calls is followed by `flow`.
const TWO_ADDS: &str = "bounds b 1 n 6 q 5 r 3\n\
    call 1.1 add 0 5\npoint 1.1\nreply 1.1 5\n\
    call 1.2 add 0 2\npoint 1.2\nreply 1.2 7\n\
    premises hold\n\
    end calls 2 done 2 gaveup 0 open 0\n";

/// Lines of each kind that makes another event than a call, and one that no script may have behind its first word.
const NO_CALLS: [&str; 10] = [
    "deliver 1",
    "flow",
    "flow x",
    "hold 0",
    "free 0",
    "lose",
    "tick 1",
    "wake 1",
    "inject client 1 -",
    "fake 0 1 far",
];

const USAGE: &str = "usage: qu sim [--gen N] | live | gen N\n";

fn source_of(alloc: Global, script: &str) -> Result<MemSource, Fail> {
    let script = List::from_clones(alloc, script.as_bytes())?;
    Ok(MemSource::new(script, 1_000, List::new(alloc)))
}

/// What `qu live` writes for a script, where it ends with this status.
fn text_of<R: Threads + Wait + Sync>(
    rt: &R,
    alloc: Global,
    script: &str,
    status: u8,
) -> Result<String, Fail> {
    let words = [String::from_str(alloc, "live")?];
    let mut input = source_of(alloc, script)?;
    let mut output = MemSink::new(alloc, 1_000, List::new(alloc));
    let report = qu(rt, alloc, &words, &mut input, &mut output, &OpenGate);
    holds(report.torn.is_none(), "the run is whole")?;
    holds(report.status == status, "the status")?;
    Ok(String::from_utf8_lossy(alloc, output.taken())?)
}

/// Whether `qu live` ends with this status and writes this text for a script.
fn lives<R: Threads + Wait + Sync>(
    rt: &R,
    alloc: Global,
    script: &str,
    status: u8,
    text: &str,
) -> Result<(), Fail> {
    let told = text_of(rt, alloc, script, status)?;
    holds(told.as_str() == text, "the text")
}

#[test]
fn live_tells_what_sim_tells(rt: HostRuntime) -> Result<(), Fail> {
    let script = format!(in rt.alloc(); "{SETUP}{CALLS}")?;
    lives(&rt, rt.alloc(), script.as_str(), 0, TWO_ADDS)
}

#[test]
fn live_calls_alone(rt: HostRuntime) -> Result<(), Fail> {
    for line in &NO_CALLS {
        let script = format!(in rt.alloc(); "{SETUP}{CALLS}{line}\ncall 9\n")?;
        let text = "line 7: not in live\n";
        lives(&rt, rt.alloc(), script.as_str(), 3, text)?;
    }
    Ok(())
}

#[test]
fn live_calls_a_thousand_times_at_most(rt: HostRuntime) -> Result<(), Fail> {
    let mut script = String::from_str(rt.alloc(), SETUP)?;
    for _ in 0..1_001 {
        script.push_str("call 1 read 0\n")?;
    }
    let text = "line 1005: over limit\n";
    lives(&rt, rt.alloc(), script.as_str(), 3, text)
}

#[test]
fn live_needs_threads(rt: HostRuntime) -> Result<(), Fail> {
    let words = [String::from_str(rt.alloc(), "live")?];
    let mut input = source_of(rt.alloc(), SETUP)?;
    let mut output = MemSink::new(rt.alloc(), 1_000, List::new(rt.alloc()));
    let report = qu_alone(rt.alloc(), &words, &mut input, &mut output);
    holds(report.status == 2, "the word is wrong")?;
    holds(output.taken() == USAGE.as_bytes(), "the usage")
}

const MOVING: &str =
    "bounds 1\nseed 7\nclients 4\nobject 0 counter\nobject 1 counter\nfaulty replica 5\n";

const ADD: &str = "add 0 1";

/// Each fifth operation of a client.
const MOVE: &str = "take 0 1 + add 1 1";

/// The last operation of client 1.
const BOTH: &str = "read 0 + read 1";

/// Four clients with 25 calls each, of which each fifth moves 1 to the other counter; then client 1 reads both.
fn moving_script(alloc: Global) -> Result<String, Fail> {
    let mut script = String::from_str(alloc, MOVING)?;
    for client in 1..5 {
        for call in 1..26 {
            let op = if call % 5 == 0 { MOVE } else { ADD };
            let line = format!(in alloc; "call {client} {op}\n")?;
            script.push_str(line.as_str())?;
        }
    }
    let line = format!(in alloc; "call 1 {BOTH}\n")?;
    script.push_str(line.as_str())?;
    Ok(script)
}

/// Whether a line of a text is just this one.
fn has_line(text: &str, line: &str) -> bool {
    for one in text.lines() {
        if one == line {
            return true;
        }
    }
    false
}

/// How many lines of a text begin so.
fn lines_with(text: &str, front: &str) -> u64 {
    let mut count: u64 = 0;
    for line in text.lines() {
        if line.starts_with(front) {
            count = count.saturating_add(1);
        }
    }
    count
}

/// Whether this operation was called for under this name, and has this answer, or was given up and has none.
fn is_told(alloc: Global, text: &str, name: &str, op: &str, answer: &str) -> Result<bool, Fail> {
    let call = format!(in alloc; "call {name} {op}")?;
    let reply = format!(in alloc; "reply {name} {answer}")?;
    let gave_up = format!(in alloc; "gaveup {name}")?;
    Ok(
        has_line(text, call.as_str())
            && (has_line(text, reply.as_str()) || has_line(text, gave_up.as_str())),
    )
}

/// The values of two counters behind the operation of this name, where it has the answer that they give.
fn behind(
    alloc: Global,
    text: &str,
    name: &str,
    first: u64,
    second: u64,
) -> Result<(u64, u64), Fail> {
    let more = first.saturating_add(1);
    let answer = format!(in alloc; "{more}")?;
    if is_told(alloc, text, name, ADD, answer.as_str())? {
        return Ok((more, second));
    }
    let answer = format!(in alloc; "{first} + {second}")?;
    if is_told(alloc, text, name, BOTH, answer.as_str())? {
        return Ok((first, second));
    }
    let (less, more) = (first.saturating_sub(1), second.saturating_add(1));
    let answer = format!(in alloc; "{less} + {more}")?;
    let is_moved = is_told(alloc, text, name, MOVE, answer.as_str())?;
    holds(is_moved, "each reply is that of its point")?;
    Ok((less, more))
}

/// Whether the operations answer what two counters do, one after the other in the order of their points.
fn is_in_order(alloc: Global, text: &str) -> Result<(), Fail> {
    let (mut first, mut second) = (0, 0);
    for line in text.lines() {
        if let Some(name) = line.strip_prefix("point ") {
            let (one, other) = behind(alloc, text, name, first, second)?;
            first = one;
            second = other;
        }
    }
    Ok(())
}

#[test]
fn live_moves_between_two_counters(rt: HostRuntime) -> Result<(), Fail> {
    let script = moving_script(rt.alloc())?;
    let text = text_of(&rt, rt.alloc(), script.as_str(), 0)?;
    let text = text.as_str();
    let replies = lines_with(text, "reply ");
    let given_up = lines_with(text, "gaveup ");
    holds(
        lines_with(text, "point ") >= replies,
        "each answered call has a point",
    )?;
    holds(
        replies.saturating_add(given_up) == 101,
        "each call has an end",
    )?;
    holds(lines_with(text, "open ") == 0, "none is open")?;
    holds(has_line(text, "premises hold"), "the premises hold")?;
    is_in_order(rt.alloc(), text)
}
