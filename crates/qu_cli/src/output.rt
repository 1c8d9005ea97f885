ghost use Rattle.std.specs.Prelude.{◌≡◌, ◌≢◌, IfOk, IfErr, Err};
ghost use Rattle.qu_io.specs.Streams.{Rose, IsCalm};
ghost use Rattle.qu_io.specs.Transfer.{TakesFew};
ghost use Rattle.qu_gen.specs.Script.{generated_script};
ghost use Rattle.qu_notation.specs.Words.{IsAlone};
ghost use Rattle.qu_cli.specs.Ends.{ReadsNothing};
ghost use Rattle.qu_cli.specs.Output.{IsOutput, IsWhole, Outputs};

use super::simulation::simulate;
use super::teller::{OperationsTeller, Teller};
use qu_base::{List, NoMemory};
use qu_gather::Torn;
use qu_gen::gen_script;
use qu_io::{NoScript, Source, take_script};
use qu_notation::{Command, Telling};
use qu_trace::Trace;
use std::alloc::Global;

/// What a command has to write.
#[derive(Drop)]
pub enum Output {
    /// The run of a good script, where one was made, and the whole text that is wanted.
    Report(Option<Trace>, List<u8>),
    /// The text that tells why the script is refused, and a line for people of what could stand there, where there is
    /// memory for it.
    Refusal(List<u8>, Option<String>),
}

/// Why a command has nothing to write.
#[derive(Drop)]
pub enum NoOutput {
    /// A fault of the source ended a read.
    ReadFault,
    NoMemory,
    /// What threads left behind does not fit together.
    Torn(Torn),
}

impl From<NoScript> for NoOutput {
    ghost use Rattle.qu_cli.specs.Output.{output_error};

    ghost from_gives = { λ error outcome. outcome ≡ output_error error };

    fn from(error: NoScript) -> NoOutput {
        match error {
            NoScript::Fault => NoOutput::ReadFault,
            NoScript::NoMemory => NoOutput::NoMemory,
        }
    }
}

impl From<NoMemory> for NoOutput {
    ghost use Rattle.qu_cli.specs.declared.output.NoOutput.TheVariants as no_output;

    ghost from_gives = { λ _ outcome. outcome ≡ no_output.NoMemory };

    fn from(_error: NoMemory) -> NoOutput {
        NoOutput::NoMemory
    }
}

/// Reads the script that a command wants, or makes that of its number, and computes what it has to write, without
/// threads.
pub fn output_for<T: Teller, S: Source>(
    alloc: Global,
    command: Command,
    input: &mut S,
) -> Result<Output, NoOutput>
    requires alone { IsAlone command }
    requires served { T.serves command }
    ensures outputs { IfOk result (Outputs command (S.known input.old) (S.known input.new)) }
    ensures few { TakesFew (S.known input.old) (S.known input.new) }
    ensures fault { result ≡ Err NoOutput.ReadFault → Rose (S.known input.old) (S.known input.new) }
    ensures calm { result ≢ Err NoOutput.ReadFault → IsCalm (S.known input.old) (S.known input.new) }
    ensures whole { IfErr result IsWhole }
    ensures unread { ReadsNothing command → input.new ≡ input.old }
{
    match command {
        Command::Sim(telling) => read_output::<T, S>(alloc, telling, input),
        Command::Live => unreachable!(),
        Command::SimGen(number) => Ok(summary_output(alloc, number)?),
        Command::Gen(number) => Ok(script_output(alloc, number)?),
    }
}

/// What is to be told of the run of the script on the input.
fn read_output<T: Teller, S: Source>(
    alloc: Global,
    telling: Telling,
    input: &mut S,
) -> Result<Output, NoOutput>
    requires { T.serves (Command.Sim telling) }
    ensures outputs { IfOk result (Outputs (Command.Sim telling) (S.known input.old) (S.known input.new)) }
    ensures few { TakesFew (S.known input.old) (S.known input.new) }
    ensures fault { result ≡ Err NoOutput.ReadFault → Rose (S.known input.old) (S.known input.new) }
    ensures calm { result ≢ Err NoOutput.ReadFault → IsCalm (S.known input.old) (S.known input.new) }
    ensures whole { IfErr result IsWhole }
{
    let script = take_script(alloc, input)?;
    Ok(simulate::<T>(alloc, telling, script.as_slice())?)
}

/// What is to be told of the run of the script of a number.
#[tactic(auto, using(crate::proofs::OutputFacts::summed_output))]
fn summary_output(alloc: Global, number: u64) -> Result<Output, NoMemory>
    ensures { IfOk result (IsOutput (Command.SimGen number) (generated_script number)) }
{
    let script = gen_script(alloc, number)?;
    simulate::<OperationsTeller>(alloc, Telling::Summary(number), script.as_slice())
}

/// The script of a number.
fn script_output(alloc: Global, number: u64) -> Result<Output, NoMemory>
    ensures { IfOk result (IsOutput (Command.Gen number) (generated_script number)) }
{
    let script = gen_script(alloc, number)?;
    Ok(Output::Report(None, script))
}
