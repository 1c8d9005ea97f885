//! The words of `qu`.
ghost use Rattle.std.specs.Prelude.{◌≡◌, ◌↔◌, true, Some, IfSome, map, string_bytes};
ghost use Rattle.qu_notation.specs.declared.command.Command.{Command as ACommand};
ghost use Rattle.qu_notation.specs.Words.{IsAlone, TellsOperations, AsksFor, alone_command_of, two_words, three_words, live_words, asks_live};

use super::command_number::{joined_number, short_number};
use super::{Command, Telling};

/// The line that tells which words there are.
pub const USAGE: &[u8] = b"usage: qu sim [--gen N] | live | gen N\n";

/// Whether the words ask for a run on threads: the one word `live`, and nothing else.
pub fn asks_live(words: &[String]) -> bool
    ensures value { result ≡ asks_live (map string_bytes words.now) }
    ensures listed { (result ≡ true) ↔ (map string_bytes words.now ≡ live_words) }
{
    let live = are_live(words);
    live
}

fn are_live(words: &[String]) -> bool
    ensures { result ≡ asks_live (map string_bytes words.now) }
{
    match words {
        [word] => word.as_str() == "live",
        _ => false,
    }
}

/// What the words ask for where nobody starts threads: that for which the command set has them, and nothing else.
pub fn alone_command(words: &[String]) -> Option<Command>
    ensures value { result ≡ alone_command_of (map string_bytes words.now) }
    ensures listed { (command : ACommand) → (result ≡ Some command) ↔ AsksFor (map string_bytes words.now) command }
    ensures reports { IfSome result TellsOperations }
    ensures alone { IfSome result IsAlone }
{
    let command = command_of(words);
    command
}

#[tactic(auto, unfolding(crate::specs::Words::alone_command_of))]
fn command_of(words: &[String]) -> Option<Command>
    ensures value { result ≡ alone_command_of (map string_bytes words.now) }
    ensures reports { IfSome result TellsOperations }
    ensures alone { IfSome result IsAlone }
{
    match words {
        [word] if word.as_str() == "sim" => Some(Command::Sim(Telling::Operations)),
        [first, second] => of_two(first.as_str(), second.as_str()),
        [first, second, third] => of_three(first.as_str(), second.as_str(), third.as_str()),
        _ => None,
    }
}

/// What two words ask for.
#[tactic(auto, unfolding(crate::specs::Words::two_words))]
fn of_two(first: &str, second: &str) -> Option<Command>
    ensures value { result ≡ two_words first.now second.now }
    ensures reports { IfSome result TellsOperations }
    ensures alone { IfSome result IsAlone }
{
    match first {
        "sim" => Some(Command::SimGen(joined_number(second.as_bytes())?)),
        "gen" => Some(Command::Gen(short_number(second.as_bytes())?)),
        _ => None,
    }
}

/// What three words ask for.
#[tactic(auto, unfolding(crate::specs::Words::three_words))]
fn of_three(first: &str, second: &str, third: &str) -> Option<Command>
    ensures value { result ≡ three_words first.now second.now third.now }
    ensures reports { IfSome result TellsOperations }
    ensures alone { IfSome result IsAlone }
{
    match (first, second) {
        ("sim", "--gen") => Some(Command::SimGen(short_number(third.as_bytes())?)),
        ("gen", "--") => Some(Command::Gen(short_number(third.as_bytes())?)),
        _ => None,
    }
}
