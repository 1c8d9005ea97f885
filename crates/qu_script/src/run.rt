ghost use Rattle.std.specs.Prelude.{◌≡◌, IfOk};
ghost use Rattle.qu_world.specs.Run.{IsRun, IsSetup};
ghost use Rattle.qu_script_words.specs.Meaning.{IsAsMeant};
ghost use Rattle.qu_script.specs.Events.{run_of, played_of};

use super::player::Player;
use qu_base::NoMemory;
use qu_language::Script;
use qu_script_words::{Bad, ScriptFail};
use qu_trace::Trace;
use std::alloc::Global;

/// How far the run of a script went.
#[derive(Drop)]
pub struct Played {
    /// What happened.
    pub trace: Trace,
    /// The first line that could not be, with the reason: the run ended there.
    pub refused: Option<Bad>,
}

/// Plays a script as far as it goes: its lines make events one after another, and the trace records them.
///
/// The first line with an event that the world refuses, or with a reply that cannot be made, ends the run. What it made
/// until then stays.
#[tactic(auto, unfolding(crate::specs::Events::played_of))]
pub fn play_until_refused(alloc: Global, script: &Script) -> Result<Played, NoMemory>
    requires { IsSetup script.now.setup }
    ensures value { IfOk result (λ played. played ≡ played_of script.now) }
    ensures run { IfOk result (λ played. IsRun played.trace) }
{
    let setup = script.setup.copy(alloc)?;
    let mut player = Player::start(alloc, setup)?;
    let refused = match player.play(alloc, script.lines.as_slice()) {
        Ok(()) => None,
        Err(ScriptFail::Bad(bad)) => Some(bad),
        Err(ScriptFail::NoMemory) => return Err(NoMemory),
    };
    Ok(Played {
        trace: player.into_trace(),
        refused,
    })
}

/// Runs a script whose lines can all be.
///
/// The error is the first line that cannot be, as `play_until_refused` tells it.
#[tactic(auto, unfolding(crate::specs::Events::run_of))]
pub fn run_script(alloc: Global, script: &Script) -> Result<Trace, ScriptFail>
    requires { IsSetup script.now.setup }
    ensures value { IsAsMeant (λ trace. trace) result (run_of script.now) }
    ensures run { IfOk result IsRun }
{
    let Played { trace, refused } = play_until_refused(alloc, script)?;
    match refused {
        None => Ok(trace),
        Some(bad) => Err(ScriptFail::Bad(bad)),
    }
}
