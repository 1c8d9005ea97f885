ghost use Rattle.std.specs.Prelude.{◌≡◌, ◌≤◌, None, IfSome};
ghost use Rattle.qu_notation.specs.Words.{IsAlone};
ghost use Rattle.qu_cli.specs.Ends.{Ends};

use super::output::output_for;
use super::teller::Teller;
use super::telling::tell;
use super::{End, Report};
use qu_io::{Sink, Source, tell_text};
use qu_notation::Command;
use std::alloc::Global;

/// Does what a program was asked, over the input, with all that it tells in the output. Where it was asked
/// nothing that it knows, it tells its usage. Of runs it tells what the teller does.
///
/// The statuses are those of `qu`, with their causes.
pub fn answer<T: Teller, S: Source, K: Sink>(
    alloc: Global,
    asked: Option<Command>,
    usage: &[u8],
    input: &mut S,
    output: &mut K,
) -> Report
    requires alone { IfSome asked IsAlone }
    requires served { IfSome asked T.serves }
    ensures ends { Ends S.known K.known asked usage.now input.old input.new output.old output.new result }
    ensures whole { (result.torn ≡ None) × (result.status ≤ 6) }
{
    let Some(command) = asked else {
        tell_text(output, usage);
        return Report::from(End::BadWords);
    };
    tell(output_for::<T, S>(alloc, command, input), output)
}
