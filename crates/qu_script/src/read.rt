ghost use Rattle.std.specs.Prelude.{IfOk, true, false};
ghost use Rattle.qu_script_words.specs.Meaning.{IsAsMeant};
ghost use Rattle.qu_language.specs.Called.{calls_said, MayAllCall};
ghost use Rattle.qu_language.specs.Script.{script_of};
ghost use Rattle.qu_world.specs.Run.{IsSetup};

use qu_language::{Script, read_script as read_text};
use qu_script_words::ScriptFail;
use std::alloc::Global;

/// Reads a script, which then may be played.
///
/// The error is the first line that cannot stand, with what is wrong at its first bad word from the left; the whole
/// text is read before anything runs.
pub fn read_script(alloc: Global, text: &[u8]) -> Result<Script, ScriptFail>
    ensures value { IsAsMeant (λ script. script) result (script_of false text.now) }
    ensures limits { IfOk result (λ script. IsSetup script.setup) }
{
    read_text(alloc, false, text)
}

/// Reads a script for threads: behind its setup stand calls alone, of correct clients, and no more than 1,000.
///
/// The error is as that of `read_script`.
pub fn read_live_script(alloc: Global, text: &[u8]) -> Result<Script, ScriptFail>
    ensures value { IsAsMeant (λ script. script) result (script_of true text.now) }
    ensures limits { IfOk result (λ script. IsSetup script.setup) }
    ensures callable { IfOk result (λ script. MayAllCall script.setup (calls_said script.lines)) }
{
    read_text(alloc, true, text)
}
