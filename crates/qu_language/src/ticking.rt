ghost use Rattle.std.specs.Prelude.{◌≡◌};
ghost use Rattle.qu_script_words.specs.Meaning.{IsReadAs};
ghost use Rattle.qu_language.specs.Event.{ticks_rule, tick_rule, wake_rule, quiet_rule};

use super::outage::read_outage;
use super::{Line, MOST_TICKS};
use qu_script_words::{BadKind, LineFail, Words, read_correct_client, read_ranged};
use qu_trace::Setup;
use std::alloc::Global;

/// `tick C`, `tick C N`, `wake C`, or a line that holds replicas, lets them free or loses letters.
#[tactic(auto, unfolding(crate::specs::Event::quiet_rule))]
pub fn read_quiet(
    alloc: Global,
    setup: &Setup,
    verb: &[u8],
    words: &mut Words<'_>,
) -> Result<Line, LineFail>
    ensures { IsReadAs (λ line. line) result (quiet_rule setup.now verb.now words.old) }
{
    if verb == b"tick".as_slice() {
        Ok(read_tick(setup, words)?)
    } else if verb == b"wake".as_slice() {
        Ok(read_wake(setup, words)?)
    } else {
        read_outage(alloc, setup, verb, words)
    }
}

/// `C` or `C N`, of a correct client.
#[tactic(auto, unfolding(crate::specs::Event::tick_rule))]
fn read_tick(setup: &Setup, words: &mut Words<'_>) -> Result<Line, BadKind>
    ensures { result ≡ tick_rule setup.now words.old }
{
    let client = read_correct_client(setup, words.next()?)?;
    let count = read_ticks(words)?;
    Ok(Line::Tick(client, count))
}

/// Nothing more, or `N`.
#[tactic(auto, unfolding(crate::specs::Event::ticks_rule))]
fn read_ticks(words: &mut Words<'_>) -> Result<u64, BadKind>
    ensures { result ≡ ticks_rule words.old }
{
    if words.is_empty() {
        return Ok(1);
    }
    let count = read_ranged(1, MOST_TICKS, words.next()?)?;
    words.end()?;
    Ok(count)
}

/// `C`, of a correct client.
fn read_wake(setup: &Setup, words: &mut Words<'_>) -> Result<Line, BadKind>
    ensures { result ≡ wake_rule setup.now words.old }
{
    let client = read_correct_client(setup, words.next()?)?;
    words.end()?;
    Ok(Line::Wake(client))
}
