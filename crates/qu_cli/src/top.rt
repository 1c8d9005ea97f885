ghost use Rattle.std.specs.Prelude.{◌≡◌, ◌≤◌, None, IfSome, map, string_bytes};
ghost use Rattle.qu_notation.specs.Words.{alone_command_of, command_of, usage_text};
ghost use Rattle.qu_cli.specs.Ends.{Ends, HasOneHistory};

use super::Report;
use super::answering::answer;
use super::answering_live::answer_live;
use super::teller::OperationsTeller;
use qu_io::{Sink, Source};
use qu_live::Gate;
use qu_notation::{Command, USAGE, alone_command, asks_live};
use std::alloc::Global;
use std::sync::Wait;
use std::thread::Threads;

/// Runs the program `qu` without threads: what the words ask for, over the input, with all that it tells in the output.
///
/// The status is 0 where all went well, 2 for wrong words, 3 for a script that is refused, 4 for a
/// fault of the input, 5 for one of the output, and 6 for want of memory. Any other status than 4 comes
/// with no new fault of the input. At 0 and 5 the report has the trace of the run, if there was one, whose operations
/// have one history. For words with a number nothing is read: the script is that of the number. The word `live` is
/// wrong here.
#[tactic(auto, using(crate::proofs::EndFacts::has_history), unfolding(qu_notation::specs::Words::usage_text))]
pub fn qu_alone<S: Source, K: Sink>(
    alloc: Global,
    words: &[String],
    input: &mut S,
    output: &mut K,
) -> Report
    ensures ends { Ends S.known K.known (alone_command_of (map string_bytes words.now)) usage_text
        input.old input.new output.old output.new result }
    ensures headline { IfSome result.trace HasOneHistory }
    ensures whole { (result.torn ≡ None) × (result.status ≤ 6) }
{
    answer::<OperationsTeller, S, K>(alloc, alone_command(words), USAGE, input, output)
}

/// Runs the program `qu`. For the one word `live` it runs the calls of the script on the input on threads, which pass
/// the gate, and reports that run; for all others it does what `qu_alone` does.
///
/// The statuses are those of `qu_alone`. For `live` there is one more, 7: what the threads left behind does not fit
/// together. Then nothing is written, and the report tells what does not fit. With `live` it may wait for ever.
#[tactic(auto, unfolding(qu_notation::specs::Words::command_of, qu_notation::specs::Words::usage_text))]
pub fn qu<R: Threads + Wait + Sync, S: Source, K: Sink, G: Gate>(
    rt: &R,
    alloc: Global,
    words: &[String],
    input: &mut S,
    output: &mut K,
    gate: &G,
) -> Report
    ensures ends { Ends S.known K.known (command_of (map string_bytes words.now)) usage_text
        input.old input.new output.old output.new result }
    ensures headline { IfSome result.trace HasOneHistory }
{
    if asks_live(words) {
        return answer_live(rt, alloc, input, output, gate);
    }
    qu_alone(alloc, words, input, output)
}
