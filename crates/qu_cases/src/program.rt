//! What the programs write, over sources and sinks in memory.

use qu_base::List;
use qu_case_forms::{Case, NoAnswer, Told, repeated, set_off, words_of};
use qu_cli::qu_alone;
use qu_cli_letters::qu_letters;
use qu_io::{MemSink, MemSource};
use std::alloc::{AllocError, Global};
use std::fs;
use std::rt::Files;

#[derive(Clone, Copy)]
pub enum Program {
    Qu,
    QuLetters,
}

/// What a program with these words writes for an input, and its status.
pub fn write(
    alloc: Global,
    program: Program,
    words: &str,
    input: &[u8],
    out: &mut Told,
) -> Result<(), NoAnswer> {
    let words = words_of(alloc, words, 0)?;
    let input = List::from(input.to_vec(alloc)?);
    // Short reads and writes, so that both are done in pieces.
    let mut source = MemSource::new(input, 7, List::new(alloc));
    let mut sink = MemSink::new(alloc, 5, List::new(alloc));
    run(
        alloc,
        program,
        words.as_slice(),
        &mut source,
        &mut sink,
        out,
    );
    Ok(())
}

/// Runs a program, and tells what it writes and its status. Whether it leaves a trace.
fn run(
    alloc: Global,
    program: Program,
    words: &[String],
    source: &mut MemSource,
    sink: &mut MemSink,
    out: &mut Told,
) -> bool {
    let (status, traced) = ended(alloc, program, words, source, sink);
    out.put_bytes(alloc, sink.taken());
    out.put_number("status ", u64::from(status));
    traced
}

fn ended(
    alloc: Global,
    program: Program,
    words: &[String],
    source: &mut MemSource,
    sink: &mut MemSink,
) -> (u8, bool) {
    let report = match program {
        Program::Qu => qu_alone(alloc, words, source, sink),
        Program::QuLetters => qu_letters(alloc, words, source, sink),
    };
    (report.status, report.trace.is_some())
}

/// `pieces MOST READ MOST WRITE WORDS`: what `qu` writes where a read gives so many bytes at most and this read
/// fails, and a write takes so many and that write fails; and whether there is a trace, the calls, and how many bytes
/// are not read.
pub fn pieces(alloc: Global, case: &Case<'_>, out: &mut Told) -> Result<(), NoAnswer> {
    let source = source_of(alloc, case)?;
    let sink = sink_of(alloc, case)?;
    let words = words_of(alloc, case.words, 4)?;
    run_pieces(alloc, words.as_slice(), source, sink, out);
    Ok(())
}

fn source_of(alloc: Global, case: &Case<'_>) -> Result<MemSource, NoAnswer> {
    let (most, failing) = limits(alloc, case, 0, 1)?;
    if most == 0 {
        return Err(NoAnswer::Number);
    }
    let script = repeated(alloc, case.lines)?;
    Ok(MemSource::new(List::from(script), most, failing))
}

fn sink_of(alloc: Global, case: &Case<'_>) -> Result<MemSink, NoAnswer> {
    let (most, failing) = limits(alloc, case, 2, 3)?;
    Ok(MemSink::new(alloc, most, failing))
}

/// How many bytes go at once, and which call fails, by the words at these places of the case.
fn limits(
    alloc: Global,
    case: &Case<'_>,
    most: usize,
    failing: usize,
) -> Result<(usize, List<u64>), NoAnswer> {
    match (case.short(most), case.number(failing)) {
        (Ok(most), Ok(failing)) => Ok((usize::from(most), List::one(alloc, failing)?)),
        _ => Err(NoAnswer::Number),
    }
}

fn run_pieces(
    alloc: Global,
    words: &[String],
    mut source: MemSource,
    mut sink: MemSink,
    out: &mut Told,
) {
    let traced = run(alloc, Program::Qu, words, &mut source, &mut sink, out);
    out.put(if traced { ", a trace" } else { ", no trace" });
    out.put_number(", reads ", source.calls());
    out.put_number(" left ", source.left().len() as u64);
    out.put_number(", writes ", sink.calls());
}

/// Whether the program writes for the script `NAME` what stands in `NAME.report`; else what it writes.
pub fn example(
    rt: &(impl Files + AllocGlobal),
    name: &str,
    out: &mut Told,
) -> Result<(), NoAnswer> {
    let told = written(rt, Program::Qu, "sim", name)?;
    let report = report_of(rt, name)?;
    match told.strip_prefix(report.as_str()) {
        Some(status) => {
            out.put("as in ");
            out.put(name);
            out.put(".report, ");
            out.put(status);
        }
        None => out.put(told.as_str()),
    }
    Ok(())
}

/// What a program with these words writes for the script of a file, and its status.
fn written(
    rt: &(impl Files + AllocGlobal),
    program: Program,
    words: &str,
    path: &str,
) -> Result<String, NoAnswer> {
    let script = fs::read(rt, path)?;
    let mut told = Told::new(rt.alloc());
    write(rt.alloc(), program, words, script.as_slice(), &mut told)?;
    told.text().or(Err(NoAnswer::NoMemory))
}

fn report_of(rt: &(impl Files + AllocGlobal), name: &str) -> Result<String, NoAnswer> {
    let alloc = rt.alloc();
    let path = format!(in alloc; "{name}.report")?;
    Ok(fs::read_to_string(rt, path)?)
}

/// Whether the lines of a page that are set off by four spaces are what `qu-letters` writes for the script that
/// the case names; else what it writes.
pub fn page(
    rt: &(impl Files + AllocGlobal),
    case: &Case<'_>,
    out: &mut Told,
) -> Result<(), NoAnswer> {
    let told = written(rt, Program::QuLetters, "", case.word(0))?;
    let page = fs::read_to_string(rt, case.name)?;
    let shown = set_off(rt.alloc(), page.as_str())?;
    match told.strip_prefix(shown.as_str()) {
        Some(status) => {
            out.put("shows what is written, ");
            out.put(status);
        }
        None => out.put(told.as_str()),
    }
    Ok(())
}
