//! The words of `qu-letters`.
ghost use Rattle.std.specs.Prelude.{◌≡◌, ◌↔◌, Some, IfSome, Contains, map, string_bytes};
ghost use Rattle.qu_notation.specs.declared.command.Command.{Command as ACommand};
ghost use Rattle.qu_notation.specs.Words.{IsAlone, TellsLetters, command_in, letters_commands};

use super::{Command, Telling};

/// The line that tells which words there are.
pub const LETTERS_USAGE: &[u8] = b"usage: qu-letters [digests | bytes]\n";

/// What the words ask for: that with which the set lists them, and nothing else.
pub fn letters_command(words: &[String]) -> Option<Command>
    ensures value { result ≡ command_in letters_commands (map string_bytes words.now) }
    ensures listed { (command : ACommand) → (result ≡ Some command)
        ↔ Contains letters_commands (map string_bytes words.now, command) }
    ensures letters { IfSome result TellsLetters }
    ensures alone { IfSome result IsAlone }
{
    let command = letters_command_of(words);
    command
}

#[tactic(auto, unfolding(crate::specs::Words::command_in))]
fn letters_command_of(words: &[String]) -> Option<Command>
    ensures value { result ≡ command_in letters_commands (map string_bytes words.now) }
    ensures letters { IfSome result TellsLetters }
    ensures alone { IfSome result IsAlone }
{
    match words {
        [] => Some(Command::Sim(Telling::Events)),
        [word] if word.as_str() == "digests" => Some(Command::Sim(Telling::Digests)),
        [word] if word.as_str() == "bytes" => Some(Command::Sim(Telling::Bytes)),
        _ => None,
    }
}
