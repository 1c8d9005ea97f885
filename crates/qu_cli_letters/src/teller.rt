//! What tells of the letters of a run.
ghost use Rattle.std.specs.Prelude.{IfOk};
ghost use Rattle.qu_notation.specs.Words.{TellsLetters};
ghost use Rattle.qu_world.specs.Run.{IsRun};
ghost use Rattle.qu_cli.specs.Ends.{Lists, TellsRun};

use qu_audit::audit;
use qu_base::{List, NoMemory};
use qu_cli::Teller;
use qu_listing::{bytes_text, digests_text, events_text};
use qu_notation::{Command, Telling};
use qu_safety::order_of;
use qu_trace::{DecodedTrace, Trace};
use std::alloc::Global;

/// What tells of a run's letters: by event, with their digests, or with their bytes.
pub struct LettersTeller;

impl Teller for LettersTeller {
    ghost serves = { TellsLetters };

    fn told_text(alloc: Global, telling: Telling, trace: &Trace) -> Result<List<u8>, NoMemory> {
        told_letters(alloc, telling, trace)
    }
}

fn told_letters(alloc: Global, telling: Telling, trace: &Trace) -> Result<List<u8>, NoMemory>
    requires served { TellsLetters (Command.Sim telling) }
    requires run { IsRun trace.now }
    ensures { IfOk result (TellsRun telling trace.now) }
{
    match telling {
        Telling::Events => {
            let text = listing_text(alloc, trace)?;
            Ok(text)
        }
        Telling::Digests => {
            let text = digests_text(alloc, trace)?;
            Ok(text)
        }
        Telling::Bytes => {
            let text = bytes_text(alloc, trace)?;
            Ok(text)
        }
        Telling::Operations | Telling::Summary(_) => unreachable!(),
    }
}

/// The events of a run, with the points that its report tells.
fn listing_text(alloc: Global, trace: &Trace) -> Result<List<u8>, NoMemory>
    requires { IsRun trace.now }
    ensures { IfOk result (Lists trace.now) }
{
    let run = DecodedTrace::of(alloc, trace)?;
    let premises = audit(alloc, &run)?;
    let order = order_of(alloc, &run)?;
    let text = events_text(alloc, trace, &premises, order.as_slice())?;
    Ok(text)
}
