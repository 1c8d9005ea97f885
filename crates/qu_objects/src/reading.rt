//! Single operations and items from bytes, by the formats of `specs/Formats.antt`.
ghost use Rattle.std.specs.Prelude.{◌≡◌};
ghost use Rattle.qu_base.specs.Reading.{Reads, Gives};
ghost use Rattle.qu_base.specs.Texts.{named_form, some_names, listing_form};
ghost use Rattle.kind_dir.specs.Rising.{last_name};
ghost use Rattle.qu_objects.specs.Formats.{method_form, ask_form, item_form, any_name, is_after, is_one_of, next_object};

use super::{Ask, Method};
use kind_dir::is_above_last;
use qu_base::{BadText, Cursor, ENTRIES_LIMIT, Item, List, ObjectId, ReadFail, Why};
use std::alloc::Global;

/// The next update.
#[tactic(auto, unfolding(crate::specs::Formats::method_form))]
pub(crate) fn read_method(alloc: Global, text: &mut Cursor<'_>) -> Result<Method, ReadFail>
    ensures { Gives method_form result text.old text.new }
{
    let start = text.ahead();
    let code = text.u8_within(0, 255)?;
    match code {
        1 => Ok(Method::Add(text.u64_within(0, u64::MAX)?)),
        2 => Ok(Method::Take(text.u64_within(0, u64::MAX)?)),
        3 => Ok(Method::Put(text.content(alloc)?)),
        4 => Ok(Method::Append(text.content(alloc)?)),
        5 => {
            let name = text.name(alloc)?;
            let number = text.u64_within(0, u64::MAX)?;
            Ok(Method::Link(name, number))
        }
        6 => Ok(Method::Unlink(text.name(alloc)?)),
        _ => Err(ReadFail::Bad(start.refusal(Why::Range))),
    }
}

/// The next ask.
#[tactic(auto, unfolding(crate::specs::Formats::ask_form))]
pub(crate) fn read_ask(alloc: Global, text: &mut Cursor<'_>) -> Result<Ask, ReadFail>
    ensures { Gives ask_form result text.old text.new }
{
    let start = text.ahead();
    let code = text.u8_within(0, 255)?;
    match code {
        1 => Ok(Ask::Read),
        2 => Ok(Ask::Cat),
        3 => Ok(Ask::Find(text.name(alloc)?)),
        4 => Ok(Ask::All),
        _ => Err(ReadFail::Bad(start.refusal(Why::Range))),
    }
}

/// The next item.
#[tactic(auto, unfolding(crate::specs::Formats::item_form))]
pub(crate) fn read_item(alloc: Global, text: &mut Cursor<'_>) -> Result<Item, ReadFail>
    ensures { Gives item_form result text.old text.new }
{
    let start = text.ahead();
    let code = text.u8_within(0, 255)?;
    match code {
        1 => Ok(Item::Number(text.u64_within(0, u64::MAX)?)),
        2 => Ok(Item::Bytes(text.content(alloc)?)),
        3 => Ok(Item::Entries(read_listing(alloc, text)?)),
        _ => Err(ReadFail::Bad(start.refusal(Why::Range))),
    }
}

/// A count, and so many entries by rising names.
#[tactic(auto, unfolding(qu_base::specs::Texts::listing_form))]
fn read_listing(alloc: Global, text: &mut Cursor<'_>) -> Result<List<(List<u8>, u64)>, ReadFail>
    ensures { Gives (listing_form any_name) result text.old text.new }
{
    let count = text.u16_within(0, ENTRIES_LIMIT)?;
    next_entries(alloc, count, text)
}

/// So many entries, by rising names.
#[tactic(auto, using(qu_base::proofs::Lists::list_laws, kind_dir::proofs::LastName::last_more))]
fn next_entries(
    alloc: Global,
    count: u16,
    text: &mut Cursor<'_>,
) -> Result<List<(List<u8>, u64)>, ReadFail>
    ensures { Gives (some_names any_name count) result text.old text.new }
{
    let mut entries = List::new(alloc);
    for at in 0..count {
        let entry = next_entry(alloc, entries.as_slice(), text)?;
        entries.push(entry)?;
    }
    Ok(entries)
}

/// The next entry, whose name is above the last one of those that stand before it.
#[tactic(auto, unfolding(qu_base::specs::Texts::named_form))]
fn next_entry(
    alloc: Global,
    earlier: &[(List<u8>, u64)],
    text: &mut Cursor<'_>,
) -> Result<(List<u8>, u64), ReadFail>
    ensures { Gives (named_form any_name (last_name earlier.now)) result text.old text.new }
{
    let start = text.ahead();
    let name = text.name(alloc)?;
    if !is_above_last(earlier, name.as_slice()) {
        return Err(ReadFail::Bad(start.refusal(Why::Order)));
    }
    let number = text.u64_within(0, u64::MAX)?;
    Ok((name, number))
}

/// The next object, which is one of the known ones and above the one before it.
pub(crate) fn read_object(
    known: &[ObjectId],
    before: Option<ObjectId>,
    text: &mut Cursor<'_>,
) -> Result<ObjectId, BadText>
    ensures { Reads (next_object (is_one_of known.now) before) result text.old text.new }
{
    let start = text.ahead();
    let object = text.object()?;
    if !known.contains(&object) {
        return Err(start.refusal(Why::Range));
    }
    if !is_after(before, object) {
        return Err(start.refusal(Why::Order));
    }
    Ok(object)
}

/// Whether an object is above the one before it, if there is one.
pub(crate) fn is_after(before: Option<ObjectId>, object: ObjectId) -> bool
    ensures { result ≡ is_after before object }
{
    match before {
        None => true,
        Some(before) => before.0 < object.0,
    }
}
