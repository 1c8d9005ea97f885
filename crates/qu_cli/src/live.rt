ghost use Rattle.std.specs.Prelude.{◌≡◌, ◌≢◌, IfOk, IfErr, Err};
ghost use Rattle.qu_io.specs.Streams.{Rose, IsCalm};
ghost use Rattle.qu_world.specs.Run.{IsRun, IsSetup};
ghost use Rattle.qu_language.specs.Called.{calls_said, MayAllCall};
ghost use Rattle.qu_gather.specs.Live.{IsLive};
ghost use Rattle.qu_cli.specs.Output.{IsOutput, MayFail, Outputs, HasNoOutput};
ghost use Rattle.qu_io.specs.Transfer.{TakesFew};

use super::output::{NoOutput, Output};
use super::refusal::refusal_text;
use super::simulation::operations_text;
use qu_base::List;
use qu_gather::LiveFail;
use qu_io::{Source, take_script};
use qu_language::hint;
use qu_live::{Gate, run_live};
use qu_notation::Command;
use qu_script::{Script, ScriptFail, read_live_script};
use qu_trace::Trace;
use std::alloc::Global;
use std::sync::Wait;
use std::thread::Threads;

/// Reads a script, runs its calls on threads, and computes what is to be written.
pub fn live_output_for<R: Threads + Wait + Sync, S: Source, G: Gate>(
    rt: &R,
    alloc: Global,
    input: &mut S,
    gate: &G,
) -> Result<Output, NoOutput>
    ensures outputs { IfOk result (Outputs Command.Live (S.known input.old) (S.known input.new)) }
    ensures few { TakesFew (S.known input.old) (S.known input.new) }
    ensures fault { result ≡ Err NoOutput.ReadFault → Rose (S.known input.old) (S.known input.new) }
    ensures calm { result ≢ Err NoOutput.ReadFault → IsCalm (S.known input.old) (S.known input.new) }
    ensures torn { IfErr result (HasNoOutput Command.Live (S.known input.old) (S.known input.new)) }
{
    let script = take_script(alloc, input)?;
    match live_output(rt, alloc, script.as_slice(), gate) {
        Ok(output) => Ok(output),
        Err(LiveFail::Torn(torn)) => Err(NoOutput::Torn(torn)),
        Err(LiveFail::NoMemory) => Err(NoOutput::NoMemory),
    }
}

/// Runs the calls of a script on threads and reports the run, or tells why the script is refused.
fn live_output<R: Threads + Wait + Sync, G: Gate>(
    rt: &R,
    alloc: Global,
    script: &[u8],
    gate: &G,
) -> Result<Output, LiveFail>
    ensures output { IfOk result (IsOutput Command.Live script.now) }
    ensures torn { IfErr result (MayFail Command.Live script.now) }
{
    match read_live_script(alloc, script) {
        Ok(script) => {
            let trace = run_calls(rt, alloc, script, gate)?;
            let text = operations_text(alloc, &trace)?;
            Ok(Output::Report(Some(trace), text))
        }
        Err(ScriptFail::Bad(bad)) => {
            let told = refusal_text(alloc, List::new(alloc), bad)?;
            Ok(Output::Refusal(told, hint(alloc, true, script, bad)))
        }
        Err(ScriptFail::NoMemory) => Err(LiveFail::NoMemory),
    }
}

/// The run of the calls of a script on threads.
#[tactic(auto, using(crate::proofs::LiveFacts::calls_may))]
fn run_calls<R: Threads + Wait + Sync, G: Gate>(
    rt: &R,
    alloc: Global,
    script: Script,
    gate: &G,
) -> Result<Trace, LiveFail>
    requires setup { IsSetup script.setup }
    requires callable { MayAllCall script.setup (calls_said script.lines) }
    ensures live { IfOk result (IsLive script.setup (calls_said script.lines)) }
    ensures run { IfOk result IsRun }
{
    let calls = script.calls(alloc)?;
    let setup = script.setup.copy(alloc)?;
    let trace = run_live(rt, alloc, setup, calls.as_slice(), gate)?;
    Ok(trace)
}
