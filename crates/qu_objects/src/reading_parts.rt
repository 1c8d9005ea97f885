//! The parts of acts and of queries from bytes.
ghost use Rattle.std.specs.Prelude.{◌≡◌, OnErr};
ghost use Rattle.qu_base.specs.Reading.{Gives, IsGiven};
ghost use Rattle.qu_objects.specs.Formats.{method_form, ask_form, is_one_of, part_form, some_parts, act_form, query_form};

use super::reading::{read_ask, read_method, read_object};
use super::{Act, Ask, MOST_PARTS, Method, Query};
use qu_base::{Cursor, List, ObjectId, ReadFail};
use std::alloc::Global;

/// The next parts of an act, from their count on; each object is one of the known ones.
///
/// A refusal is that of the first field that fails. Without an act the text stays as it is.
#[tactic(auto, using(crate::proofs::ReadingLaws::act_laws))]
pub fn read_act(alloc: Global, known: &[ObjectId], text: &mut Cursor<'_>) -> Result<Act, ReadFail>
    ensures read { IsGiven (act_form (is_one_of known.now)) result text.old text.new }
    ensures kept { OnErr result (text.new ≡ text.old) }
{
    text.are_bytes();
    let mut ahead = text.ahead();
    let parts = counted_methods(alloc, known, &mut ahead)?;
    let Ok(act) = Act::new(parts) else {
        unreachable!();
    };
    *text = ahead;
    Ok(act)
}

/// A count, and so many parts of an act.
#[tactic(auto, unfolding(crate::specs::Formats::act_form))]
fn counted_methods(
    alloc: Global,
    known: &[ObjectId],
    text: &mut Cursor<'_>,
) -> Result<List<(ObjectId, Method)>, ReadFail>
    ensures { Gives (act_form (is_one_of known.now)) result text.old text.new }
{
    let count = text.u8_within(1, MOST_PARTS)?;
    read_method_parts(alloc, count, known, text)
}

/// So many parts of an act.
#[tactic(auto, using(qu_base::proofs::Lists::list_laws))]
fn read_method_parts(
    alloc: Global,
    count: u8,
    known: &[ObjectId],
    text: &mut Cursor<'_>,
) -> Result<List<(ObjectId, Method)>, ReadFail>
    ensures { Gives (some_parts method_form (is_one_of known.now) count) result text.old text.new }
{
    let mut parts = List::new(alloc);
    let mut before = None;
    for at in 0..count {
        let (object, method) = read_method_part(alloc, known, before, text)?;
        parts.push((object, method))?;
        before = Some(object);
    }
    Ok(parts)
}

/// The next object, and what is done to it.
fn read_method_part(
    alloc: Global,
    known: &[ObjectId],
    before: Option<ObjectId>,
    text: &mut Cursor<'_>,
) -> Result<(ObjectId, Method), ReadFail>
    ensures { Gives (part_form method_form (is_one_of known.now) before) result text.old text.new }
{
    let object = read_object(known, before, text)?;
    Ok((object, read_method(alloc, text)?))
}

/// The next parts of a query, from their count on; each object is one of the known ones.
///
/// A refusal is that of the first field that fails. Without a query the text stays as it is.
#[tactic(auto, using(crate::proofs::ReadingLaws::query_laws))]
pub fn read_query(
    alloc: Global,
    known: &[ObjectId],
    text: &mut Cursor<'_>,
) -> Result<Query, ReadFail>
    ensures read { IsGiven (query_form (is_one_of known.now)) result text.old text.new }
    ensures kept { OnErr result (text.new ≡ text.old) }
{
    text.are_bytes();
    let mut ahead = text.ahead();
    let parts = counted_asks(alloc, known, &mut ahead)?;
    let Ok(query) = Query::new(parts) else {
        unreachable!();
    };
    *text = ahead;
    Ok(query)
}

/// A count, and so many parts of a query.
#[tactic(auto, unfolding(crate::specs::Formats::query_form))]
fn counted_asks(
    alloc: Global,
    known: &[ObjectId],
    text: &mut Cursor<'_>,
) -> Result<List<(ObjectId, Ask)>, ReadFail>
    ensures { Gives (query_form (is_one_of known.now)) result text.old text.new }
{
    let count = text.u8_within(1, MOST_PARTS)?;
    read_ask_parts(alloc, count, known, text)
}

/// So many parts of a query.
#[tactic(auto, using(qu_base::proofs::Lists::list_laws))]
fn read_ask_parts(
    alloc: Global,
    count: u8,
    known: &[ObjectId],
    text: &mut Cursor<'_>,
) -> Result<List<(ObjectId, Ask)>, ReadFail>
    ensures { Gives (some_parts ask_form (is_one_of known.now) count) result text.old text.new }
{
    let mut parts = List::new(alloc);
    let mut before = None;
    for at in 0..count {
        let (object, ask) = read_ask_part(alloc, known, before, text)?;
        parts.push((object, ask))?;
        before = Some(object);
    }
    Ok(parts)
}

/// The next object, and what is asked of it.
fn read_ask_part(
    alloc: Global,
    known: &[ObjectId],
    before: Option<ObjectId>,
    text: &mut Cursor<'_>,
) -> Result<(ObjectId, Ask), ReadFail>
    ensures { Gives (part_form ask_form (is_one_of known.now) before) result text.old text.new }
{
    let object = read_object(known, before, text)?;
    Ok((object, read_ask(alloc, text)?))
}
