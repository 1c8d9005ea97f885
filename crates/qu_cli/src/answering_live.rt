ghost use Rattle.std.specs.Prelude.{Some};
ghost use Rattle.qu_notation.specs.Words.{usage_text};
ghost use Rattle.qu_cli.specs.Ends.{Ends};

use super::Report;
use super::live::live_output_for;
use super::telling::tell;
use qu_io::{Sink, Source};
use qu_live::Gate;
use qu_notation::Command;
use std::alloc::Global;
use std::sync::Wait;
use std::thread::Threads;

/// Runs the calls of the script on the input on threads, with all that it tells in the output.
///
/// The statuses are those of `qu`, with their causes.
pub fn answer_live<R: Threads + Wait + Sync, S: Source, K: Sink, G: Gate>(
    rt: &R,
    alloc: Global,
    input: &mut S,
    output: &mut K,
    gate: &G,
) -> Report
    ensures { Ends S.known K.known (Some Command.Live) usage_text input.old input.new output.old output.new result }
{
    tell(live_output_for(rt, alloc, input, gate), output)
}
