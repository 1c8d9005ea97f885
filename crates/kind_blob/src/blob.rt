ghost use Rattle.std.specs.Prelude.{◌≡◌, ◌++◌, [], IfOk};
ghost use Rattle.kind_blob.specs.Blob.{stored};

use qu_base::{
    Applied, CONTENT_LIMIT, Cursor, Item, Kind, List, NoMemory, Outbytes, ReadFail, Told,
    put_content,
};
use std::alloc::Global;
use std::marker::Model;

/// Number 5: there would be more than `CONTENT_LIMIT` bytes.
pub const TOO_LONG: u8 = 5;

/// At most `CONTENT_LIMIT` bytes, first none, which contracts see as the list of them.
#[derive(Drop)]
pub struct Blob {
    content: List<u8>,
}

impl Model for Blob {
    ghost use Rattle.std.specs.Prelude.{ℕ, List};

    ghost Value = { List ℕ };

    ghost view = { λ blob. blob.content };
}

/// What changes a blob; it answers the new length, or is refused as `TOO_LONG`.
#[derive(Clone, Drop, PartialEq, Eq)]
pub enum BlobUpdate {
    /// Puts these bytes in the place of those that are there.
    Put(List<u8>),
    /// Adds these bytes at the end.
    Append(List<u8>),
}

/// What is asked of a blob.
#[derive(Clone, Copy, PartialEq, Eq)]
pub enum BlobQuery {
    /// All its bytes.
    Cat,
}

impl Blob {
    /// The bytes that it holds.
    pub fn content(&self) -> &List<u8>
        ensures { result.now ≡ self.now }
    {
        &self.content
    }

    /// An equal blob.
    pub fn copy(&self, alloc: Global) -> Result<Blob, NoMemory>
        ensures { IfOk result (λ blob. blob ≡ self.now) }
    {
        Ok(Blob {
            content: self.content.copy(alloc)?,
        })
    }
}

impl Kind for Blob {
    ghost use Rattle.qu_base.specs.Texts.{content_form};
    ghost use Rattle.kind_blob.specs.Blob.{blob_applied, blob_told, BlobUpdateFits};
    ghost use Rattle.kind_blob.specs.Laws.{blob-code, blob-first, blob-changed};

    type Update = BlobUpdate;

    type Query = BlobQuery;

    ghost first = { [] };

    ghost applied = { blob_applied };

    ghost told = { blob_told };

    ghost update_fits = { BlobUpdateFits };

    ghost form = { content_form };

    fn fresh(alloc: Global) -> Result<Blob, NoMemory> {
        Ok(Blob {
            content: List::new(alloc),
        })
    }

    fn apply(&self, alloc: Global, update: &BlobUpdate) -> Result<Applied<Blob>, NoMemory> {
        match update {
            BlobUpdate::Put(content) => joined(alloc, &[], content.as_slice()),
            BlobUpdate::Append(more) => joined(alloc, self.content.as_slice(), more.as_slice()),
        }
    }

    fn tell(&self, alloc: Global, query: &BlobQuery) -> Result<Told, NoMemory> {
        match query {
            BlobQuery::Cat => Ok(Told::Item(Item::Bytes(self.content.copy(alloc)?))),
        }
    }

    fn write(&self, out: &mut Outbytes) -> Result<(), NoMemory> {
        put_content(self.content.as_slice(), out)
    }

    #[tactic(auto, using(crate::specs::Laws::blob_read))]
    fn read(alloc: Global, text: &mut Cursor<'_>) -> Result<Blob, ReadFail> {
        text.are_bytes();
        let content = text.content(alloc)?;
        Ok(Blob { content })
    }

    ghost code = { blob-code };

    ghost first_fits = { blob-first };

    ghost changed_fits = { blob-changed };
}

/// The numbers of the refusals.
pub fn refusals_are_these()
    ensures too_long { TOO_LONG ≡ 5 }
{}

/// The bytes that are there with more at their end, unless they are too many.
fn joined(alloc: Global, there: &[u8], more: &[u8]) -> Result<Applied<Blob>, NoMemory>
    ensures { IfOk result (λ outcome. outcome ≡ stored (there.now ++ more.now)) }
{
    let limit = usize::from(CONTENT_LIMIT);
    if there.len() > limit || more.len() > limit - there.len() {
        return Ok(Applied::Refused(TOO_LONG));
    }
    let mut content = List::from_clones(alloc, there)?.into_vec();
    content.extend_from_slice(more)?;
    let length = content.len() as u64;
    let content = List::from(content);
    Ok(Applied::Changed(Blob { content }, Item::Number(length)))
}
