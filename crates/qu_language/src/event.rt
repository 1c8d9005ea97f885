ghost use Rattle.std.specs.Prelude.{◌≡◌};
ghost use Rattle.qu_script_words.specs.Meaning.{IsReadAs};
ghost use Rattle.qu_language.specs.Event.{call_rule, flow_rule, event_rule, is_event_word, live_rule};

use super::bringing::{read_fake, read_inject};
use super::operation::read_operation;
use super::ticking::read_quiet;
use super::{Line, MOST_CALLS};
use qu_script_words::{BadKind, LineFail, Words, read_correct_client, read_number, read_numbers};
use qu_trace::Setup;
use std::alloc::Global;

/// Reads a line behind this setup, by its first word.
#[tactic(auto, unfolding(crate::specs::Event::event_rule))]
pub fn read_event(
    alloc: Global,
    setup: &Setup,
    verb: &[u8],
    words: &mut Words<'_>,
) -> Result<Line, LineFail>
    ensures { IsReadAs (λ line. line) result (event_rule setup.now verb.now words.old) }
{
    if verb == b"call".as_slice() {
        read_call(alloc, setup, words)
    } else if verb == b"deliver".as_slice() {
        Ok(Line::Deliver(read_numbers(alloc, words)?))
    } else if verb == b"flow".as_slice() {
        Ok(read_flow(words)?)
    } else if verb == b"inject".as_slice() {
        read_inject(alloc, setup, words)
    } else if verb == b"fake".as_slice() {
        read_fake(alloc, setup, words)
    } else {
        read_quiet(alloc, setup, verb, words)
    }
}

/// Reads a line of a script for threads, behind this setup and so many calls, by its first word.
#[tactic(auto, unfolding(crate::specs::Event::live_rule))]
pub fn read_live(
    alloc: Global,
    setup: &Setup,
    count: usize,
    verb: &[u8],
    words: &mut Words<'_>,
) -> Result<Line, LineFail>
    ensures { IsReadAs (λ line. line) result (live_rule setup.now count verb.now words.old) }
{
    if verb == b"call".as_slice() {
        if count < MOST_CALLS {
            read_call(alloc, setup, words)
        } else {
            Err(LineFail::Bad(BadKind::OverLimit))
        }
    } else if is_event_word(verb) {
        Err(LineFail::Bad(BadKind::NotInLive))
    } else {
        Err(LineFail::Bad(BadKind::UnknownWord))
    }
}

/// Whether a line that begins with this word makes other events than a call.
fn is_event_word(verb: &[u8]) -> bool
    ensures { result ≡ is_event_word verb.now }
{
    verb == b"deliver".as_slice()
        || verb == b"flow".as_slice()
        || verb == b"inject".as_slice()
        || verb == b"fake".as_slice()
        || verb == b"tick".as_slice()
        || verb == b"wake".as_slice()
        || verb == b"hold".as_slice()
        || verb == b"free".as_slice()
        || verb == b"lose".as_slice()
}

/// `C OP`, of a correct client.
#[tactic(auto, unfolding(crate::specs::Event::call_rule))]
fn read_call(alloc: Global, setup: &Setup, words: &mut Words<'_>) -> Result<Line, LineFail>
    ensures { IsReadAs (λ line. line) result (call_rule setup.now words.old) }
{
    let client = read_correct_client(setup, words.next()?)?;
    let op = read_operation(alloc, setup.kinds.len(), words)?;
    Ok(Line::Call(client, op))
}

/// Nothing more, or `N`.
#[tactic(auto, unfolding(crate::specs::Event::flow_rule))]
fn read_flow(words: &mut Words<'_>) -> Result<Line, BadKind>
    ensures { result ≡ flow_rule words.old }
{
    if words.is_empty() {
        return Ok(Line::Flow(None));
    }
    let count = read_number(words.next()?)?;
    words.end()?;
    Ok(Line::Flow(Some(count)))
}
