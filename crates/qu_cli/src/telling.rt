ghost use Rattle.std.specs.Prelude.{◌≡◌, IfErr};
ghost use Rattle.qu_cli.specs.Told.{IsTold};

use super::output::{NoOutput, Output};
use super::{End, Report};
use qu_io::{Sink, tell_text, write_text};

/// Tells what a command has to write, and reports how that ended, or why there is nothing to write.
pub fn tell<K: Sink>(made: Result<Output, NoOutput>, output: &mut K) -> Report
    ensures told { IsTold made (K.known output.old) (K.known output.new) result }
    ensures untold { IfErr made (λ _. output.new ≡ output.old) }
{
    match made {
        Ok(Output::Report(trace, text)) => match write_text(output, text.as_slice()) {
            Ok(()) => Report::with_trace(End::Done, trace),
            Err(_) => Report::with_trace(End::WriteFault, trace),
        },
        Ok(Output::Refusal(text, hint)) => {
            tell_text(output, text.as_slice());
            Report::with_hint(hint)
        }
        Err(NoOutput::ReadFault) => Report::from(End::ReadFault),
        Err(NoOutput::NoMemory) => Report::from(End::NoMemory),
        Err(NoOutput::Torn(torn)) => Report::with_torn(torn),
    }
}
