ghost use Rattle.std.specs.Prelude.{◌≡◌, ◌++◌, take, length, OnOk, OnErr};
ghost use Rattle.std.specs.List.{flat_map};
ghost use Rattle.qu_base.specs.declared.party.ReplicaId.{ReplicaId};
ghost use Rattle.qu_history.specs.Formats.{macs_form, sealed_form, entries_form, set_form, sets_form, shown_form};

use super::{Sealed, SetOf, Sets};
use qu_base::{NoMemory, Outbytes};

/// Appends the one spelling of the sets, with their HMACs. Without memory the text stays as it is.
pub fn write_sets(sets: &Sets, out: &mut Outbytes) -> Result<(), NoMemory>
    ensures ok { OnOk result (out.new ≡ out.old ++ sets_form.spell sets.now) }
    ensures err { OnErr result (out.new ≡ out.old) }
{
    let length = out.len();
    let written = append_sets(sets.objects().as_slice(), out);
    if written.is_err() {
        out.rewind(length);
    }
    written
}

/// Appends the count of the objects, and each of them; on failure a part of this.
#[tactic(auto, unfolding(crate::specs::Formats::sets_form), using(qu_base::proofs::Writing::writing_laws))]
fn append_sets(sets: &[SetOf], out: &mut Outbytes) -> Result<(), NoMemory>
    ensures ok { OnOk result (out.new ≡ out.old ++ sets_form.spell sets.now) }
    ensures err { OnErr result (take (length out.old) out.new ≡ out.old) }
{
    out.count(sets.len())?;
    append_each_set(sets, out)
}

/// Appends the objects with their entries one behind the other, and on failure a part of them.
#[tactic(auto, using(qu_base::proofs::Writing::writing_laws))]
fn append_each_set(sets: &[SetOf], out: &mut Outbytes) -> Result<(), NoMemory>
    ensures ok { OnOk result (out.new ≡ out.old ++ flat_map (set_form 0).spell sets.now) }
    ensures err { OnErr result (take (length out.old) out.new ≡ out.old) }
{
    for set in sets {
        append_set(set, out)?;
    }
    Ok(())
}

/// Appends the object, and its entries; on failure a part of this.
#[tactic(auto, unfolding(crate::specs::Formats::set_form, crate::specs::Formats::entries_form), using(qu_base::proofs::Writing::writing_laws))]
fn append_set(set: &SetOf, out: &mut Outbytes) -> Result<(), NoMemory>
    ensures ok { OnOk result (out.new ≡ out.old ++ (set_form 0).spell set.now) }
    ensures err { OnErr result (take (length out.old) out.new ≡ out.old) }
{
    out.u16(set.object.0)?;
    out.count(set.entries.len())?;
    append_all(set.entries.as_slice(), out)
}

/// Appends the one spelling of what a replica shows. Without memory the text stays as it is.
pub fn write_shown(shown: &[Sealed], out: &mut Outbytes) -> Result<(), NoMemory>
    ensures ok { (replica : ReplicaId) → OnOk result (out.new ≡ out.old ++ (shown_form replica).spell shown.now) }
    ensures err { OnErr result (out.new ≡ out.old) }
{
    let length = out.len();
    let written = append_shown(shown, out);
    if written.is_err() {
        out.rewind(length);
    }
    written
}

/// Appends the count of the sealed histories, and each of them; on failure a part of this.
#[tactic(auto, unfolding(crate::specs::Formats::shown_form), using(qu_base::proofs::Writing::writing_laws))]
fn append_shown(shown: &[Sealed], out: &mut Outbytes) -> Result<(), NoMemory>
    ensures ok { (replica : ReplicaId) → OnOk result (out.new ≡ out.old ++ (shown_form replica).spell shown.now) }
    ensures err { OnErr result (take (length out.old) out.new ≡ out.old) }
{
    out.count(shown.len())?;
    append_all(shown, out)
}

/// Appends sealed histories one behind the other, and on failure a part of them.
#[tactic(auto, using(qu_base::proofs::Writing::writing_laws))]
fn append_all(entries: &[Sealed], out: &mut Outbytes) -> Result<(), NoMemory>
    ensures ok { OnOk result (out.new ≡ out.old ++ flat_map sealed_form.spell entries.now) }
    ensures err { OnErr result (take (length out.old) out.new ≡ out.old) }
{
    for entry in entries {
        append_sealed(entry, out)?;
    }
    Ok(())
}

/// Appends the history, and its HMACs; on failure a part of this.
#[tactic(auto, unfolding(crate::specs::Formats::sealed_form), using(qu_base::proofs::Writing::writing_laws))]
fn append_sealed(sealed: &Sealed, out: &mut Outbytes) -> Result<(), NoMemory>
    ensures ok { OnOk result (out.new ≡ out.old ++ sealed_form.spell sealed.now) }
    ensures err { OnErr result (take (length out.old) out.new ≡ out.old) }
{
    sealed.history.write(out)?;
    append_macs(sealed.macs.as_slice(), out)
}

/// Appends the count of the HMACs, and each of them; on failure a part of this.
#[tactic(auto, using(qu_base::proofs::Writing::writing_laws))]
fn append_macs(macs: &[[u8; 32]], out: &mut Outbytes) -> Result<(), NoMemory>
    ensures ok { OnOk result (out.new ≡ out.old ++ macs_form.spell macs.now) }
    ensures err { OnErr result (take (length out.old) out.new ≡ out.old) }
{
    out.count(macs.len())?;
    append_each_mac(macs, out)
}

/// Appends the HMACs one behind the other, and on failure a part of them.
#[tactic(auto, using(qu_base::proofs::Writing::writing_laws))]
fn append_each_mac(macs: &[[u8; 32]], out: &mut Outbytes) -> Result<(), NoMemory>
    ensures ok { OnOk result (out.new ≡ out.old ++ flat_map (λ mac. mac) macs.now) }
    ensures err { OnErr result (take (length out.old) out.new ≡ out.old) }
{
    for mac in macs {
        out.put(mac)?;
    }
    Ok(())
}
