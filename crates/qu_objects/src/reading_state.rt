//! States from bytes, by the formats of `specs/States.antt`.
ghost use Rattle.std.specs.Prelude.{◌≡◌, OnErr};
ghost use Rattle.qu_base.specs.Reading.{Reads, Gives, IsGiven};
ghost use Rattle.qu_objects.specs.States.{value_form, is_later_client, row_form, some_rows, kept_form, link_form, some_links, links_form, state_form};

use super::reading::is_after;
use super::{KEPT_LIMIT, KeptRow, LINKS_LIMIT, Link, ObjState, Value, read_answer};
use kind_blob::Blob;
use kind_counter::Counter;
use kind_dir::Dir;
use qu_base::{BadText, ClientId, Cursor, Kind, List, ObjectId, ReadFail, Why};
use qu_stamp::read_stamp;
use std::alloc::Global;

/// The next state.
///
/// A refusal is that of the first field that fails. Without a state the text stays as it is.
#[tactic(auto, using(crate::proofs::StateLaws::state_laws))]
pub fn read_state(alloc: Global, text: &mut Cursor<'_>) -> Result<ObjState, ReadFail>
    ensures read { IsGiven state_form result text.old text.new }
    ensures kept { OnErr result (text.new ≡ text.old) }
{
    text.are_bytes();
    let mut ahead = text.ahead();
    let state = state_at(alloc, &mut ahead)?;
    *text = ahead;
    Ok(state)
}

/// The value, the rows and the links.
#[tactic(auto, unfolding(crate::specs::States::state_form))]
fn state_at(alloc: Global, text: &mut Cursor<'_>) -> Result<ObjState, ReadFail>
    ensures { Gives state_form result text.old text.new }
{
    let value = value_at(alloc, text)?;
    let kept = kept_at(alloc, text)?;
    let links = links_at(alloc, text)?;
    Ok(ObjState { value, kept, links })
}

/// The code of a kind, and a value of it.
#[tactic(auto, unfolding(crate::specs::States::value_form))]
fn value_at(alloc: Global, text: &mut Cursor<'_>) -> Result<Value, ReadFail>
    ensures { Gives value_form result text.old text.new }
{
    let start = text.ahead();
    let code = text.u8_within(0, 255)?;
    match code {
        1 => Ok(Value::Counter(Counter::read(alloc, text)?)),
        2 => Ok(Value::Blob(Blob::read(alloc, text)?)),
        3 => Ok(Value::Dir(Dir::read(alloc, text)?)),
        _ => Err(ReadFail::Bad(start.refusal(Why::Range))),
    }
}

/// A count, and so many rows.
#[tactic(auto, unfolding(crate::specs::States::kept_form))]
fn kept_at(alloc: Global, text: &mut Cursor<'_>) -> Result<List<KeptRow>, ReadFail>
    ensures { Gives kept_form result text.old text.new }
{
    let count = text.u8_within(0, KEPT_LIMIT)?;
    next_rows(alloc, count, text)
}

/// So many rows, by rising clients.
#[tactic(auto, using(qu_base::proofs::Lists::list_laws))]
fn next_rows(alloc: Global, count: u8, text: &mut Cursor<'_>) -> Result<List<KeptRow>, ReadFail>
    ensures { Gives (some_rows count) result text.old text.new }
{
    let mut rows = List::new(alloc);
    let mut before = None;
    for at in 0..count {
        let row = row_at(alloc, before, text)?;
        before = Some(row.client);
        rows.push(row)?;
    }
    Ok(rows)
}

/// The next row, of a client above the one before it.
#[tactic(auto, unfolding(crate::specs::States::row_form))]
fn row_at(
    alloc: Global,
    before: Option<ClientId>,
    text: &mut Cursor<'_>,
) -> Result<KeptRow, ReadFail>
    ensures { Gives (row_form before) result text.old text.new }
{
    let start = text.ahead();
    let client = text.client()?;
    if !is_later_client(before, client) {
        return Err(ReadFail::Bad(start.refusal(Why::Order)));
    }
    let number = text.u64_within(0, u64::MAX)?;
    let act = text.digest()?;
    let answer = read_answer(alloc, text)?;
    Ok(KeptRow {
        client,
        number,
        act,
        answer,
    })
}

/// Whether a client is above the one before it, if there is one.
fn is_later_client(before: Option<ClientId>, client: ClientId) -> bool
    ensures { result ≡ is_later_client before client }
{
    match before {
        None => true,
        Some(before) => before.0 < client.0,
    }
}

/// A count, and so many links.
#[tactic(auto, unfolding(crate::specs::States::links_form))]
fn links_at(alloc: Global, text: &mut Cursor<'_>) -> Result<List<Link>, ReadFail>
    ensures { Gives links_form result text.old text.new }
{
    let count = text.u8_within(0, LINKS_LIMIT)?;
    next_links(alloc, count, text)
}

/// So many links, by rising objects.
#[tactic(auto, using(qu_base::proofs::Lists::list_laws))]
fn next_links(alloc: Global, count: u8, text: &mut Cursor<'_>) -> Result<List<Link>, ReadFail>
    ensures { Gives (some_links count) result text.old text.new }
{
    let mut links = List::new(alloc);
    let mut before = None;
    for at in 0..count {
        let link = link_at(before, text)?;
        before = Some(link.object);
        links.push(link)?;
    }
    Ok(links)
}

/// The next link, to an object above the one before it.
#[tactic(auto, unfolding(crate::specs::States::link_form))]
fn link_at(before: Option<ObjectId>, text: &mut Cursor<'_>) -> Result<Link, BadText>
    ensures { Reads (link_form before) result text.old text.new }
{
    let start = text.ahead();
    let object = text.object()?;
    if !is_after(before, object) {
        return Err(start.refusal(Why::Order));
    }
    let stamp = read_stamp(text)?;
    Ok(Link { object, stamp })
}
