//! What tells of runs.
ghost use Rattle.std.specs.Prelude.{IfOk};
ghost use Rattle.qu_notation.specs.Words.{TellsOperations};
ghost use Rattle.qu_world.specs.Run.{IsRun};
ghost use Rattle.qu_cli.specs.Ends.{TellsRun};

use super::simulation::{operations_text, sums_text};
use qu_base::{List, NoMemory};
use qu_notation::{Command, Telling};
use qu_trace::Trace;
use std::alloc::Global;

/// What tells of runs what some commands want of them.
pub trait Teller {
    ghost use Rattle.qu_notation.specs.declared.command.Command.{Command as ACommand};

    /// The commands that it serves.
    ghost serves: { ACommand → Type 0 };

    /// What is told of a run.
    fn told_text(alloc: Global, telling: Telling, trace: &Trace) -> Result<List<u8>, NoMemory>
        requires served { serves (Command.Sim telling) }
        requires run { IsRun trace.now }
        ensures { IfOk result (TellsRun telling trace.now) };
}

/// What tells of a run's operations, in a report or in a line that sums them up.
pub struct OperationsTeller;

impl Teller for OperationsTeller {
    ghost serves = { TellsOperations };

    fn told_text(alloc: Global, telling: Telling, trace: &Trace) -> Result<List<u8>, NoMemory> {
        told_operations(alloc, telling, trace)
    }
}

fn told_operations(alloc: Global, telling: Telling, trace: &Trace) -> Result<List<u8>, NoMemory>
    requires served { TellsOperations (Command.Sim telling) }
    requires run { IsRun trace.now }
    ensures { IfOk result (TellsRun telling trace.now) }
{
    match telling {
        Telling::Operations => {
            let text = operations_text(alloc, trace)?;
            Ok(text)
        }
        Telling::Summary(number) => {
            let text = sums_text(alloc, number, trace)?;
            Ok(text)
        }
        Telling::Events | Telling::Digests | Telling::Bytes => unreachable!(),
    }
}
