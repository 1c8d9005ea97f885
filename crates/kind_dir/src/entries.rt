//! Entries that rise by their names: a search among them, and copies with an entry more or fewer.
ghost use Rattle.std.specs.Prelude.{◌≡◌, ◌<◌, ◌≤◌, IsTrue, None, IfOk, IfErr, length};
ghost use Rattle.std.specs.List.{insert, remove};
ghost use Rattle.kind_dir.specs.Rising.{are_rising};
ghost use Rattle.kind_dir.specs.Places.{IsAt, IsGap};

use qu_base::{List, NoMemory};
use std::alloc::Global;

/// Where the entry of a name is, or where it would go.
pub(crate) fn place_of(entries: &[(List<u8>, u64)], name: &[u8]) -> Result<usize, usize>
    requires { IsTrue (are_rising None entries.now) }
    ensures found { IfOk result (IsAt name.now entries.now) }
    ensures absent { IfErr result (IsGap name.now entries.now) }
{
    entries.binary_search_by(|entry| entry.0.as_slice().cmp(name))
}

/// The entries, and one more at a place.
pub(crate) fn inserted(
    alloc: Global,
    entries: &[(List<u8>, u64)],
    at: usize,
    name: &[u8],
    number: u64,
) -> Result<List<(List<u8>, u64)>, NoMemory>
    requires { at ≤ length entries.now }
    ensures { IfOk result (λ list. list ≡ insert entries.now at (name.now, number)) }
{
    let entry = (List::from_clones(alloc, name)?, number);
    let mut entries = List::from_clones(alloc, entries)?.into_vec();
    entries.insert(at, entry)?;
    Ok(List::from(entries))
}

/// The entries but the one at a place.
pub(crate) fn removed(
    alloc: Global,
    entries: &[(List<u8>, u64)],
    at: usize,
) -> Result<List<(List<u8>, u64)>, NoMemory>
    requires { at < length entries.now }
    ensures { IfOk result (λ list. list ≡ remove entries.now at) }
{
    let mut entries = List::from_clones(alloc, entries)?.into_vec();
    let _entry = entries.remove(at);
    Ok(List::from(entries))
}
