//! Entries from bytes, by the format `dir_form` of `specs/Dir.antt`.
ghost use Rattle.std.specs.Prelude.{◌≡◌};
ghost use Rattle.qu_base.specs.Reading.{Gives};
ghost use Rattle.qu_base.specs.Texts.{is_name_above, named_form, some_names};
ghost use Rattle.kind_dir.specs.Names.{is_good_name as is_good};
ghost use Rattle.kind_dir.specs.Rising.{last_name};
ghost use Rattle.kind_dir.specs.Dir.{dir_form};

use super::names::is_good_name;
use qu_base::{Cursor, ENTRIES_LIMIT, List, ReadFail, Why, is_name_before};
use std::alloc::Global;

/// A count, and so many entries by rising names; on failure a part of them may be read.
#[tactic(auto, unfolding(crate::specs::Dir::dir_form, qu_base::specs::Texts::listing_form))]
pub(crate) fn entries_at(
    alloc: Global,
    text: &mut Cursor<'_>,
) -> Result<List<(List<u8>, u64)>, ReadFail>
    ensures { Gives dir_form result text.old text.new }
{
    let count = text.u16_within(0, ENTRIES_LIMIT)?;
    next_entries(alloc, count, text)
}

/// So many entries, by rising names.
#[tactic(auto, using(qu_base::proofs::Lists::list_laws, crate::proofs::LastName::last_more))]
fn next_entries(
    alloc: Global,
    count: u16,
    text: &mut Cursor<'_>,
) -> Result<List<(List<u8>, u64)>, ReadFail>
    ensures { Gives (some_names is_good count) result text.old text.new }
{
    let mut entries = List::new(alloc);
    for at in 0..count {
        let entry = entry_at(alloc, entries.as_slice(), text)?;
        entries.push(entry)?;
    }
    Ok(entries)
}

/// The next entry, whose name is good and above the last one of those that stand before it.
#[tactic(auto, unfolding(qu_base::specs::Texts::named_form))]
fn entry_at(
    alloc: Global,
    earlier: &[(List<u8>, u64)],
    text: &mut Cursor<'_>,
) -> Result<(List<u8>, u64), ReadFail>
    ensures { Gives (named_form is_good (last_name earlier.now)) result text.old text.new }
{
    let start = text.ahead();
    let name = text.name(alloc)?;
    if !is_good_name(name.as_slice()) {
        return Err(ReadFail::Bad(start.refusal(Why::Range)));
    }
    if !is_above_last(earlier, name.as_slice()) {
        return Err(ReadFail::Bad(start.refusal(Why::Order)));
    }
    let number = text.u64_within(0, u64::MAX)?;
    Ok((name, number))
}

/// Whether a name is above the last one of these entries, if there is one.
pub fn is_above_last(earlier: &[(List<u8>, u64)], name: &[u8]) -> bool
    ensures { result ≡ is_name_above (last_name earlier.now) name.now }
{
    match earlier.last() {
        None => true,
        Some(last) => is_name_before(last.0.as_slice(), name),
    }
}
