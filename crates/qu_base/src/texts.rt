//! Texts that tell their length, from bytes and as bytes, by the formats of `specs/Texts.antt`.
ghost use Rattle.std.specs.Prelude.{◌≡◌, ◌++◌, ℕ, Bool, List as Sequence, length, take, OnOk, OnErr};
ghost use Rattle.std.specs.List.{flat_map};
ghost use Rattle.qu_base.specs.Format.{bytes};
ghost use Rattle.qu_base.specs.Reading.{Gives};
ghost use Rattle.qu_base.specs.Texts.{content_form, name_form, is_name_before, spelled_name, listing_form};

use super::{CONTENT_LIMIT, Cursor, List, NAME_LIMIT, NoMemory, Outbytes, ReadFail, Why};
use std::alloc::Global;

impl<'a> Cursor<'a> {
    /// The next bytes, so many. Without them the place stays.
    #[tactic(auto, using(crate::proofs::Formats::bytes_read, crate::proofs::Formats::bytes_short))]
    pub fn bytes(&mut self, alloc: Global, count: usize) -> Result<List<u8>, ReadFail>
        ensures read { Gives (bytes count) result self.old self.new }
        ensures kept { OnErr result (self.new ≡ self.old) }
    {
        let mut ahead = self.ahead();
        let Some(piece) = ahead.take(count) else {
            return Err(ReadFail::Bad(self.refusal(Why::Short)));
        };
        let content = List::from_clones(alloc, piece)?;
        *self = ahead;
        Ok(content)
    }

    /// A length of two bytes, and so many bytes. Without them the place stays.
    #[tactic(auto, unfolding(crate::specs::Texts::content_form))]
    pub fn content(&mut self, alloc: Global) -> Result<List<u8>, ReadFail>
        ensures read { Gives content_form result self.old self.new }
        ensures kept { OnErr result (self.new ≡ self.old) }
    {
        let mut ahead = self.ahead();
        let count = ahead.u16_within(0, CONTENT_LIMIT)?;
        let content = ahead.bytes(alloc, usize::from(count))?;
        *self = ahead;
        Ok(content)
    }

    /// A length of one byte, and so many bytes. Without them the place stays.
    #[tactic(auto, unfolding(crate::specs::Texts::name_form))]
    pub fn name(&mut self, alloc: Global) -> Result<List<u8>, ReadFail>
        ensures read { Gives name_form result self.old self.new }
        ensures kept { OnErr result (self.new ≡ self.old) }
    {
        let mut ahead = self.ahead();
        let count = ahead.u8_within(0, NAME_LIMIT)?;
        let name = ahead.bytes(alloc, usize::from(count))?;
        *self = ahead;
        Ok(name)
    }
}

/// Whether the first name is before the second one, by their bytes.
pub fn is_name_before(first: &[u8], second: &[u8]) -> bool
    ensures { result ≡ is_name_before first.now second.now }
{
    first.cmp(second).is_lt()
}

/// Appends the length of a content, and the content. Without memory the text stays as it is.
#[tactic(auto, unfolding(crate::specs::Texts::content_form))]
pub fn put_content(content: &[u8], out: &mut Outbytes) -> Result<(), NoMemory>
    ensures ok { OnOk result (out.new ≡ out.old ++ content_form.spell content.now) }
    ensures err { OnErr result (out.new ≡ out.old) }
{
    let start = out.len();
    out.length(content.len())?;
    let written = out.put(content);
    if written.is_err() {
        out.rewind(start);
    }
    written
}

/// Appends the length of a name, and the name. Without memory the text stays as it is.
#[tactic(auto, unfolding(crate::specs::Texts::name_form))]
pub fn put_name(name: &[u8], out: &mut Outbytes) -> Result<(), NoMemory>
    ensures ok { OnOk result (out.new ≡ out.old ++ name_form.spell name.now) }
    ensures err { OnErr result (out.new ≡ out.old) }
{
    let start = out.len();
    out.count(name.len())?;
    let written = out.put(name);
    if written.is_err() {
        out.rewind(start);
    }
    written
}

/// Appends a count of entries, and the entries. Without memory the text stays as it is.
#[tactic(auto, unfolding(crate::specs::Texts::listing_form), using(crate::proofs::Writing::writing_laws))]
pub fn put_entries(entries: &[(List<u8>, u64)], out: &mut Outbytes) -> Result<(), NoMemory>
    ensures ok { (accepted : Sequence ℕ → Bool) → OnOk result (out.new
        ≡ out.old ++ (listing_form accepted).spell entries.now) }
    ensures err { OnErr result (out.new ≡ out.old) }
{
    let start = out.len();
    out.length(entries.len())?;
    let written = put_each_entry(entries, out);
    if written.is_err() {
        out.rewind(start);
    }
    written
}

/// Appends entries; on failure a part of them.
#[tactic(auto, using(crate::proofs::Writing::writing_laws))]
fn put_each_entry(entries: &[(List<u8>, u64)], out: &mut Outbytes) -> Result<(), NoMemory>
    ensures ok { OnOk result (out.new ≡ out.old ++ flat_map spelled_name entries.now) }
    ensures err { OnErr result (take (length out.old) out.new ≡ out.old) }
{
    for entry in entries {
        put_name(entry.0.as_slice(), out)?;
        out.u64(entry.1)?;
    }
    Ok(())
}
