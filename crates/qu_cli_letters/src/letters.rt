ghost use Rattle.std.specs.Prelude.{◌≡◌, ◌≤◌, None, map, string_bytes};
ghost use Rattle.qu_notation.specs.Words.{command_in, letters_commands, letters_usage_text};
ghost use Rattle.qu_cli.specs.Ends.{Ends};

use super::teller::LettersTeller;
use qu_cli::{Report, answer};
use qu_io::{Sink, Source};
use qu_notation::{LETTERS_USAGE, letters_command};
use std::alloc::Global;

/// Runs the program `qu-letters`: lists the letters of the run of the script on the input, by event with the points of
/// its operations, with their digests or with their bytes, as the words ask.
///
/// The statuses are those of `qu`, with their causes. At 0 and 5 the report has the trace of the run. Where a line is
/// refused as the script runs, what happened until then is listed, and the refusal is the last line.
#[tactic(auto, unfolding(qu_notation::specs::Words::letters_usage_text))]
pub fn qu_letters<S: Source, K: Sink>(
    alloc: Global,
    words: &[String],
    input: &mut S,
    output: &mut K,
) -> Report
    ensures ends { Ends S.known K.known (command_in letters_commands (map string_bytes words.now)) letters_usage_text
        input.old input.new output.old output.new result }
    ensures whole { (result.torn ≡ None) × (result.status ≤ 6) }
{
    answer::<LettersTeller, S, K>(alloc, letters_command(words), LETTERS_USAGE, input, output)
}
