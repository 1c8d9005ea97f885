//! The calls of the crates below. They stand here without what they promise, so that the functions that call them
//! know nothing of it, and are proved fast.

ghost use Rattle.std.specs.Prelude.{IfOk};
ghost use Rattle.qu_world.specs.Run.{IsRun, IsSetup};

use qu_base::{ClientId, NoMemory};
use qu_case_forms::NoAnswer;
use qu_script::{Script, read_script, run_script};
use qu_trace::{Event, Setup, Trace};
use qu_world::{World, WorldFail};
use std::alloc::Global;

/// The script of a text.
pub fn script_of(alloc: Global, text: &[u8]) -> Result<Script, NoAnswer>
    ensures { IfOk result (λ script. IsSetup script.setup) }
{
    match read_script(alloc, text) {
        Ok(script) => Ok(script),
        Err(_) => Err(NoAnswer::Event),
    }
}

/// The run of a script.
pub fn run_text(alloc: Global, text: &[u8]) -> Result<Trace, NoAnswer>
    ensures { IfOk result IsRun }
{
    let script = script_of(alloc, text)?;
    run(alloc, &script)
}

fn run(alloc: Global, script: &Script) -> Result<Trace, NoAnswer>
    requires { IsSetup script.now.setup }
    ensures { IfOk result IsRun }
{
    match run_script(alloc, script) {
        Ok(trace) => Ok(trace),
        Err(_) => Err(NoAnswer::Event),
    }
}

/// The world with which the run of a script begins.
pub fn world_of(alloc: Global, text: &[u8]) -> Result<World, NoAnswer> {
    let script = script_of(alloc, text)?;
    Ok(start(alloc, script.setup.copy(alloc)?)?)
}

/// The world with which a run of this setup begins.
pub fn start(alloc: Global, setup: Setup) -> Result<World, NoMemory>
    requires { IsSetup setup }
{
    World::start(alloc, setup)
}

pub fn apply(world: &mut World, event: Event) -> Result<(), WorldFail> {
    world.apply(event)
}

/// How many ticks are left of a client's rest.
pub fn rest_left(world: &World, client: ClientId) -> u64 {
    let Some(client) = world.client(client) else {
        return 0;
    };
    client.rest_left().map_or(0, u64::from)
}

/// What the run of a world has become.
pub fn trace_of(world: World) -> Trace
    ensures { IsRun result }
{
    world.into_trace()
}
