ghost use Rattle.std.specs.Prelude.{◌≡◌, ◌<◌, ◌≤◌, ◌^◌, length, IfOk, true};
ghost use Rattle.qu_notation.specs.Text.{lines_of};
ghost use Rattle.qu_script_words.specs.Meaning.{IsAsMeant, at_line};
ghost use Rattle.qu_script_words.specs.Words.{words_in};
ghost use Rattle.qu_io.specs.declared.limits.TheConstants.{SCRIPT_LIMIT};
ghost use Rattle.qu_language.specs.Called.{calls_said, MayAllCall};
ghost use Rattle.qu_language.specs.Phase.{line_rule, end_rule, IsGood};
ghost use Rattle.qu_language.specs.Script.{lines_rule, script_of};
ghost use Rattle.qu_language.specs.Setup.{IsWithin};

use crate::line::Script;
use crate::phase::Phase;
use qu_io::SCRIPT_LIMIT;
use qu_notation::cut_line;
use qu_script_words::{Bad, BadKind, LineFail, ScriptFail, Words, cut_words};
use std::alloc::Global;

/// Reads a script: `bounds`, `seed`, `clients`, objects, faulty parties, and the lines behind them, which are at most
/// 1,000 calls where threads run the script (`live`).
///
/// The error is the first line that cannot stand, with what is wrong at its first bad word from the left. A text of
/// more than 16 MiB is refused at line 1; what is missing at the end, at the line behind the last.
#[tactic(auto, unfolding(crate::specs::Script::script_of))]
pub fn read_script(alloc: Global, live: bool, text: &[u8]) -> Result<Script, ScriptFail>
    ensures value { IsAsMeant (λ script. script) result (script_of live text.now) }
    ensures limits { IfOk result (λ script. IsWithin script.setup) }
    ensures callable { live ≡ true → IfOk result (λ script. MayAllCall script.setup (calls_said script.lines)) }
{
    if text.len() > SCRIPT_LIMIT {
        return Err(ScriptFail::Bad(Bad {
            line: 1,
            kind: BadKind::TooLong,
        }));
    }
    read_lines(alloc, live, text)
}

/// Reads all lines of a text.
fn read_lines(alloc: Global, live: bool, text: &[u8]) -> Result<Script, ScriptFail>
    requires { length text.now ≤ SCRIPT_LIMIT }
    ensures value { IsAsMeant (λ script. script) result (lines_rule live Phase.NeedsBounds 1 (lines_of text.now)) }
    ensures limits { IfOk result (λ script. IsWithin script.setup) }
    ensures callable { live ≡ true → IfOk result (λ script. MayAllCall script.setup (calls_said script.lines)) }
{
    let mut phase = Phase::NeedsBounds;
    let mut number = 1;
    let mut rest = text;
    'lines: while !rest.is_empty() {
        let (line, after) = cut_line(rest);
        phase = read_line(alloc, live, phase, number, line)?;
        number += 1;
        rest = after;
    }
    finish(phase, number)
}

/// Reads the line with this number.
fn read_line(
    alloc: Global,
    live: bool,
    phase: Phase,
    number: u64,
    line: &[u8],
) -> Result<Phase, ScriptFail>
    requires { IsGood phase }
    ensures value { IsAsMeant (λ phase. phase) result
        (at_line number (line_rule live phase number (words_in line.now))) }
    ensures good { IfOk result IsGood }
{
    let words = cut_words(alloc, line)?;
    let mut words = Words::of(words.as_slice());
    match phase.read_line(alloc, live, number, &mut words) {
        Ok(phase) => Ok(phase),
        Err(fail) => Err(fail.at(number)),
    }
}

/// The script, where no line has this number.
fn finish(phase: Phase, number: u64) -> Result<Script, ScriptFail>
    requires { IsGood phase }
    ensures value { IsAsMeant (λ script. script) result (at_line number (end_rule phase)) }
    ensures limits { IfOk result (λ script. IsWithin script.setup) }
{
    match phase.finish() {
        Ok(script) => Ok(script),
        Err(kind) => Err(LineFail::Bad(kind).at(number)),
    }
}
