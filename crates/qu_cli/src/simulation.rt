ghost use Rattle.std.specs.Prelude.{◌≡◌, false, None, Some, Ok, Err, IfOk};
ghost use Rattle.qu_world.specs.Run.{IsRun, IsSetup};
ghost use Rattle.qu_language.specs.Script.{script_of};
ghost use Rattle.qu_script.specs.Events.{played_of};
ghost use Rattle.qu_cli.specs.Ends.{Reports, SumsUp, TellsFront};
ghost use Rattle.qu_cli.specs.Output.{IsOutput};

use super::output::Output;
use super::refusal::refusal_text;
use super::teller::Teller;
use qu_audit::audit;
use qu_base::{List, NoMemory};
use qu_language::{hint, run_hint};
use qu_notation::{Command, Telling};
use qu_print::{report_text, summary_text};
use qu_safety::order_of;
use qu_script::{Bad, Played, Script, ScriptFail, play_until_refused, read_script};
use qu_trace::{DecodedTrace, Trace};
use std::alloc::Global;

/// Runs the script that a text spells and tells this of the run, or why the script is refused.
pub fn simulate<T: Teller>(alloc: Global, telling: Telling, text: &[u8]) -> Result<Output, NoMemory>
    requires { T.serves (Command.Sim telling) }
    ensures { IfOk result (IsOutput (Command.Sim telling) text.now) }
{
    match read_script(alloc, text) {
        Ok(script) => run_told::<T>(alloc, telling, text, &script),
        Err(ScriptFail::Bad(bad)) => unread_told(alloc, telling, text, bad),
        Err(ScriptFail::NoMemory) => Err(NoMemory),
    }
}

/// What is told of a text that is no script.
#[tactic(auto, using(crate::proofs::SimulationFacts::unread_output))]
fn unread_told(alloc: Global, telling: Telling, text: &[u8], bad: Bad) -> Result<Output, NoMemory>
    requires { script_of false text.now ≡ Err bad }
    ensures { IfOk result (IsOutput (Command.Sim telling) text.now) }
{
    let told = refusal_text(alloc, List::new(alloc), bad)?;
    Ok(Output::Refusal(told, hint(alloc, false, text, bad)))
}

/// What is told of the run of the script that a text spells.
fn run_told<T: Teller>(
    alloc: Global,
    telling: Telling,
    text: &[u8],
    script: &Script,
) -> Result<Output, NoMemory>
    requires served { T.serves (Command.Sim telling) }
    requires spelled { script_of false text.now ≡ Ok script.now }
    requires setup { IsSetup script.now.setup }
    ensures { IfOk result (IsOutput (Command.Sim telling) text.now) }
{
    let Played { trace, refused } = play_until_refused(alloc, script)?;
    match refused {
        None => whole_told::<T>(alloc, telling, text, script, trace),
        Some(bad) => stopped_told::<T>(alloc, telling, text, script, &trace, bad),
    }
}

/// What is told of a run that is not refused.
#[tactic(auto, using(crate::proofs::SimulationFacts::whole_output))]
fn whole_told<T: Teller>(
    alloc: Global,
    telling: Telling,
    text: &[u8],
    script: &Script,
    trace: Trace,
) -> Result<Output, NoMemory>
    requires served { T.serves (Command.Sim telling) }
    requires spelled { script_of false text.now ≡ Ok script.now }
    requires played { played_of script.now ≡ record { trace = trace; refused = None } }
    requires run { IsRun trace }
    ensures { IfOk result (IsOutput (Command.Sim telling) text.now) }
{
    let told = T::told_text(alloc, telling, &trace)?;
    Ok(Output::Report(Some(trace), told))
}

/// What is told of a run that is refused, and of what happened before.
#[tactic(auto, using(crate::proofs::SimulationFacts::stopped_output))]
fn stopped_told<T: Teller>(
    alloc: Global,
    telling: Telling,
    text: &[u8],
    script: &Script,
    trace: &Trace,
    bad: Bad,
) -> Result<Output, NoMemory>
    requires served { T.serves (Command.Sim telling) }
    requires spelled { script_of false text.now ≡ Ok script.now }
    requires played { played_of script.now ≡ record { trace = trace.now; refused = Some bad } }
    requires run { IsRun trace.now }
    ensures { IfOk result (IsOutput (Command.Sim telling) text.now) }
{
    let front = front_text::<T>(alloc, telling, trace)?;
    let told = refusal_text(alloc, front, bad)?;
    Ok(Output::Refusal(told, run_hint(alloc, script, trace, bad)))
}

/// What is told of what happened before a refusal.
#[tactic(auto, using(crate::proofs::SimulationFacts::front_laws))]
fn front_text<T: Teller>(
    alloc: Global,
    telling: Telling,
    trace: &Trace,
) -> Result<List<u8>, NoMemory>
    requires served { T.serves (Command.Sim telling) }
    requires run { IsRun trace.now }
    ensures { IfOk result (TellsFront telling trace.now) }
{
    match telling {
        Telling::Operations | Telling::Summary(_) => Ok(List::new(alloc)),
        Telling::Events | Telling::Digests | Telling::Bytes => T::told_text(alloc, telling, trace),
    }
}

/// The report of a run, which is decoded once for all that reads it.
pub fn operations_text(alloc: Global, trace: &Trace) -> Result<List<u8>, NoMemory>
    requires { IsRun trace.now }
    ensures { IfOk result (Reports trace.now) }
{
    let run = DecodedTrace::of(alloc, trace)?;
    let premises = audit(alloc, &run)?;
    let order = order_of(alloc, &run)?;
    let text = report_text(alloc, &run, &premises, order.as_slice())?;
    Ok(text)
}

/// The line that sums up the run of the script of a number.
pub fn sums_text(alloc: Global, number: u64, trace: &Trace) -> Result<List<u8>, NoMemory>
    requires { IsRun trace.now }
    ensures { IfOk result (SumsUp number trace.now) }
{
    let run = DecodedTrace::of(alloc, trace)?;
    let premises = audit(alloc, &run)?;
    let order = order_of(alloc, &run)?;
    let text = summary_text(alloc, number, &run, &premises, order.as_slice())?;
    Ok(text)
}
