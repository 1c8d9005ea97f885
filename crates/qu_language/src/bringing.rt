ghost use Rattle.std.specs.Prelude.{◌≡◌};
ghost use Rattle.std.specs.Result.{result_map_both};
ghost use Rattle.qu_script_words.specs.Meaning.{IsReadAs};
ghost use Rattle.qu_language.specs.Bringing.{inject_rule, source_from, how_from, good_rule, fake_rule};

use super::{How, Line};
use qu_base::{Bounds, List, ReplicaId};
use qu_script_words::{
    BadKind, LineFail, Words, read_client, read_correct_replica, read_hex, read_party,
    read_replica, read_replicas,
};
use qu_trace::Setup;
use std::alloc::Global;

/// `replica R HEX` or `client C HEX`.
#[tactic(auto, unfolding(crate::specs::Bringing::inject_rule))]
pub fn read_inject(alloc: Global, setup: &Setup, words: &mut Words<'_>) -> Result<Line, LineFail>
    ensures { IsReadAs (λ line. line) result (inject_rule setup.now words.old) }
{
    let party = read_party(setup, words)?;
    let bytes = read_hex(alloc, words.next()?)?;
    words.end()?;
    Ok(Line::Inject(party, bytes))
}

/// `R C HOW` or `R C HOW for R R ..`.
#[tactic(auto, unfolding(crate::specs::Bringing::fake_rule))]
pub fn read_fake(alloc: Global, setup: &Setup, words: &mut Words<'_>) -> Result<Line, LineFail>
    ensures { IsReadAs (λ line. line) result (fake_rule setup.now words.old) }
{
    let replica = read_replica(&setup.bounds, words.next()?)?;
    let client = read_client(setup.clients, words.next()?)?;
    let how = read_how(setup, words)?;
    let good = read_good(alloc, &setup.bounds, words)?;
    Ok(Line::Fake(replica, client, how, good))
}

/// `show S`, `echo S` or `far`.
#[tactic(auto, unfolding(crate::specs::Bringing::how_from))]
fn read_how(setup: &Setup, words: &mut Words<'_>) -> Result<How, BadKind>
    ensures { result_map_both (λ how. (how, words.new)) (λ kind. kind) result ≡ how_from setup.now words.old }
{
    let word = words.next()?;
    if word == b"show".as_slice() {
        let source = read_source(setup, words)?;
        Ok(How::Show(source))
    } else if word == b"echo".as_slice() {
        let source = read_source(setup, words)?;
        Ok(How::Echo(source))
    } else if word == b"far".as_slice() {
        Ok(How::Far)
    } else {
        Err(BadKind::UnknownWord)
    }
}

/// A correct replica.
fn read_source(setup: &Setup, words: &mut Words<'_>) -> Result<ReplicaId, BadKind>
    ensures { result_map_both (λ source. (source, words.new)) (λ kind. kind) result ≡ source_from setup.now words.old }
{
    read_correct_replica(setup, words.next()?)
}

/// Nothing more, or `for R R ..`.
#[tactic(auto, unfolding(crate::specs::Bringing::good_rule))]
fn read_good(
    alloc: Global,
    bounds: &Bounds,
    words: &mut Words<'_>,
) -> Result<Option<List<ReplicaId>>, LineFail>
    ensures { IsReadAs (λ good. good) result (good_rule bounds.now words.old) }
{
    if words.is_empty() {
        return Ok(None);
    }
    if words.next()? != b"for".as_slice() {
        return Err(LineFail::Bad(BadKind::WrongCount));
    }
    Ok(Some(read_replicas(alloc, bounds, words)?))
}
