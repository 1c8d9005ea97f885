ghost use Rattle.std.specs.Prelude.{◌≡◌, ◌++◌, OnOk, IfOk};
ghost use Rattle.std.specs.List.{flat_map};
ghost use Rattle.qu_history.specs.Sets.{histories};
ghost use Rattle.qu_history.specs.Formats.{history_form, object_text_form, sets_text_form};
ghost use Rattle.qu_history.specs.Text.{unsealed, sets_text, sets_digest};

use super::{Sealed, SetOf, Sets};
use qu_base::{Digest, List, NoMemory, Outbytes};
use qu_seal::{SETS_TAG, digest};
use std::alloc::Global;

/// Room for the text of most sets.
const SETS_ROOM: usize = 1 << 15;

impl Sets {
    /// The digest of the sets: of their objects, each with its histories. It does not depend on HMACs.
    #[tactic(auto, unfolding(crate::specs::Text::sets_digest))]
    pub fn digest_of(&self, alloc: Global) -> Result<Digest, NoMemory>
        ensures { IfOk result (λ digest. digest ≡ sets_digest self.now) }
    {
        let text = self.text(alloc)?;
        Ok(digest(SETS_TAG, text.as_slice()))
    }

    /// The text of the sets that is digested.
    #[tactic(auto, unfolding(crate::specs::Text::sets_text))]
    pub fn text(&self, alloc: Global) -> Result<List<u8>, NoMemory>
        ensures { IfOk result (λ text. text ≡ sets_text self.now) }
    {
        let mut out = Outbytes::with_room(alloc, SETS_ROOM)?;
        append_sets(self.objects().as_slice(), &mut out)?;
        Ok(out.done())
    }
}

/// Appends the count of the objects, and each of them.
#[tactic(auto, unfolding(crate::specs::Formats::sets_text_form))]
fn append_sets(sets: &[SetOf], out: &mut Outbytes) -> Result<(), NoMemory>
    ensures { OnOk result (out.new ≡ out.old ++ sets_text_form.spell (unsealed sets.now)) }
{
    out.count(sets.len())?;
    append_each(sets, out)
}

/// Appends the objects with their histories one behind the other.
fn append_each(sets: &[SetOf], out: &mut Outbytes) -> Result<(), NoMemory>
    ensures { OnOk result (out.new ≡ out.old ++ flat_map (object_text_form 0).spell (unsealed sets.now)) }
{
    for set in sets {
        append_set(set, out)?;
    }
    Ok(())
}

/// Appends the object, and its histories.
#[tactic(auto, unfolding(crate::specs::Formats::object_text_form, crate::specs::Formats::histories_form))]
fn append_set(set: &SetOf, out: &mut Outbytes) -> Result<(), NoMemory>
    ensures { OnOk result
        (out.new ≡ out.old ++ (object_text_form 0).spell (set.now.object, histories set.now.entries)) }
{
    out.u16(set.object.0)?;
    out.count(set.entries.len())?;
    append_histories(set.entries.as_slice(), out)
}

/// Appends the histories one behind the other.
fn append_histories(entries: &[Sealed], out: &mut Outbytes) -> Result<(), NoMemory>
    ensures { OnOk result (out.new ≡ out.old ++ flat_map history_form.spell (histories entries.now)) }
{
    for entry in entries {
        entry.history.write(out)?;
    }
    Ok(())
}
