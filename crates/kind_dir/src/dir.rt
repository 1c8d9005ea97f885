ghost use Rattle.std.specs.Prelude.{◌≡◌, [], IsTrue, None, IfOk};
ghost use Rattle.kind_dir.specs.Rising.{are_rising};
ghost use Rattle.kind_dir.specs.Dir.{linked_number, changed, dir_linked, dir_unlinked, found};

use super::entries::{inserted, place_of, removed};
use super::names::is_good_name;
use super::reading::entries_at;
use super::{BAD_NAME, EXISTS, FULL, MISSING};
use qu_base::{
    Applied, Cursor, ENTRIES_LIMIT, Item, Kind, List, NoMemory, Outbytes, ReadFail, Told,
    put_entries,
};
use std::alloc::Global;
use std::marker::Model;

/// At most `ENTRIES_LIMIT` names, by rising bytes, each with a number; first none.
///
/// Contracts see it as the list of its entries.
#[derive(Drop)]
pub struct Dir {
    entries: List<(List<u8>, u64)>,
}

impl Model for Dir {
    ghost use Rattle.std.specs.Prelude.{ℕ, List, None, IsTrue};
    ghost use Rattle.kind_dir.specs.Rising.{are_rising};

    ghost Value = { List (List ℕ × ℕ) };

    ghost view = { λ dir. dir.entries };

    ghost invariant = { λ dir. IsTrue (are_rising None dir.entries) };
}

/// What changes a directory; it answers how many entries there are then.
#[derive(Clone, Drop, PartialEq, Eq)]
pub enum DirUpdate {
    /// Adds an entry: a new name, and its number.
    ///
    /// Refused as `BAD_NAME`, else as `EXISTS`, else as `FULL`.
    Link(List<u8>, u64),
    /// Removes the entry of a name, and is refused as `MISSING`.
    Unlink(List<u8>),
}

/// What is asked of a directory.
#[derive(Clone, Drop, PartialEq, Eq)]
pub enum DirQuery {
    /// The number of a name; refused as `MISSING`.
    Find(List<u8>),
    /// All entries, by rising names.
    All,
}

impl Dir {
    /// The names that it holds, by rising bytes, each with its number.
    pub fn entries(&self) -> &List<(List<u8>, u64)>
        ensures { result.now ≡ self.now }
    {
        &self.entries
    }

    /// An equal directory.
    pub fn copy(&self, alloc: Global) -> Result<Dir, NoMemory>
        ensures { IfOk result (λ dir. dir ≡ self.now) }
    {
        Ok(Dir {
            entries: self.entries.copy(alloc)?,
        })
    }
}

impl Kind for Dir {
    ghost use Rattle.kind_dir.specs.Dir.{dir_form, dir_applied, dir_told, DirUpdateFits};
    ghost use Rattle.kind_dir.specs.Laws.{dir-code, dir-first, dir-changed};

    type Update = DirUpdate;

    type Query = DirQuery;

    ghost first = { [] };

    ghost applied = { dir_applied };

    ghost told = { dir_told };

    ghost update_fits = { DirUpdateFits };

    ghost form = { dir_form };

    fn fresh(alloc: Global) -> Result<Dir, NoMemory> {
        Ok(Dir {
            entries: List::new(alloc),
        })
    }

    fn apply(&self, alloc: Global, update: &DirUpdate) -> Result<Applied<Dir>, NoMemory> {
        let entries = self.entries.as_slice();
        match update {
            DirUpdate::Link(name, number) => linked(alloc, entries, name.as_slice(), *number),
            DirUpdate::Unlink(name) => unlinked(alloc, entries, name.as_slice()),
        }
    }

    fn tell(&self, alloc: Global, query: &DirQuery) -> Result<Told, NoMemory> {
        match query {
            DirQuery::Find(name) => Ok(found(self.entries.as_slice(), name.as_slice())),
            DirQuery::All => Ok(Told::Item(Item::Entries(self.entries.copy(alloc)?))),
        }
    }

    #[tactic(auto, unfolding(crate::specs::Dir::dir_form))]
    fn write(&self, out: &mut Outbytes) -> Result<(), NoMemory> {
        put_entries(self.entries.as_slice(), out)
    }

    #[tactic(auto, using(crate::specs::Laws::dir_read))]
    fn read(alloc: Global, text: &mut Cursor<'_>) -> Result<Dir, ReadFail> {
        text.are_bytes();
        let mut ahead = text.ahead();
        let entries = entries_at(alloc, &mut ahead)?;
        *text = ahead;
        Ok(Dir { entries })
    }

    ghost code = { dir-code };

    ghost first_fits = { dir-first };

    ghost changed_fits = { dir-changed };
}

/// What linking a name makes of rising entries.
#[tactic(auto, using(crate::specs::Edits::edit_laws))]
fn linked(
    alloc: Global,
    entries: &[(List<u8>, u64)],
    name: &[u8],
    number: u64,
) -> Result<Applied<Dir>, NoMemory>
    requires { IsTrue (are_rising None entries.now) }
    ensures { IfOk result (λ outcome. outcome ≡ dir_linked name.now number entries.now) }
{
    if !is_good_name(name) {
        return Ok(Applied::Refused(BAD_NAME));
    }
    match place_of(entries, name) {
        Ok(_) => Ok(Applied::Refused(EXISTS)),
        Err(_) if entries.len() >= usize::from(ENTRIES_LIMIT) => Ok(Applied::Refused(FULL)),
        Err(at) => Ok(changed(inserted(alloc, entries, at, name, number)?)),
    }
}

/// What unlinking a name makes of rising entries.
#[tactic(auto, using(crate::specs::Edits::edit_laws))]
fn unlinked(
    alloc: Global,
    entries: &[(List<u8>, u64)],
    name: &[u8],
) -> Result<Applied<Dir>, NoMemory>
    requires { IsTrue (are_rising None entries.now) }
    ensures { IfOk result (λ outcome. outcome ≡ dir_unlinked name.now entries.now) }
{
    match place_of(entries, name) {
        Ok(at) => Ok(changed(removed(alloc, entries, at)?)),
        Err(_) => Ok(Applied::Refused(MISSING)),
    }
}

/// A directory of these rising entries, and how many they are.
fn changed(entries: List<(List<u8>, u64)>) -> Applied<Dir>
    requires { IsTrue (are_rising None entries) }
    ensures { result ≡ changed entries }
{
    let count = entries.len() as u64;
    Applied::Changed(Dir { entries }, Item::Number(count))
}

/// The number of a name among rising entries.
fn found(entries: &[(List<u8>, u64)], name: &[u8]) -> Told
    requires { IsTrue (are_rising None entries.now) }
    ensures { result ≡ found (linked_number name.now entries.now) }
{
    match place_of(entries, name) {
        Ok(at) => Told::Item(Item::Number(entries[at].1)),
        Err(_) => Told::Refused(MISSING),
    }
}
