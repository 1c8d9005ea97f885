ghost use Rattle.std.specs.Prelude.{◌≡◌, ◌++◌, true, take, length, OnOk, OnErr};
ghost use Rattle.std.specs.List.{flat_map};
ghost use Rattle.qu_base.specs.Cursor.{Extends};
ghost use Rattle.qu_base.specs.Format.{optional, digest_form};
ghost use Rattle.qu_stamp.specs.Formats.{stamp_form, spelled_member, spelled_group, spelled_candidate};

use super::{Candidate, Group, Stamp};
use qu_base::{Digest, NoMemory, ObjectId, Outbytes};

/// Appends the one spelling of a stamp. Without memory the text stays as it is.
pub fn write_stamp(stamp: &Stamp, out: &mut Outbytes) -> Result<(), NoMemory>
    ensures ok { OnOk result (out.new ≡ out.old ++ stamp_form.spell stamp.now) }
    ensures err { OnErr result (out.new ≡ out.old) }
{
    let length = out.len();
    let written = append_stamp(stamp, out);
    if written.is_err() {
        out.rewind(length);
    }
    written
}

/// Appends the fields of a stamp.
#[tactic(auto, unfolding(crate::specs::Formats::stamp_with))]
fn append_stamp(stamp: &Stamp, out: &mut Outbytes) -> Result<(), NoMemory>
    ensures ok { OnOk result (out.new ≡ out.old ++ stamp_form.spell stamp.now) }
    ensures more { Extends out.old out.new }
{
    out.u64(stamp.time)?;
    out.flag(stamp.barrier)?;
    out.u16(stamp.client.0)?;
    append_act(&stamp.act, out)?;
    out.put(&stamp.set.0)?;
    Ok(())
}

/// Appends a mark, and the digest of the act where there is one.
fn append_act(act: &Option<Digest>, out: &mut Outbytes) -> Result<(), NoMemory>
    ensures ok { OnOk result (out.new ≡ out.old ++ (optional true digest_form).spell act.now) }
    ensures more { Extends out.old out.new }
{
    match act {
        Some(act) => {
            out.u8(1)?;
            out.put(&act.0)
        }
        None => out.u8(0),
    }
}

/// Appends the one spelling of a candidate. Without memory the text stays as it is.
pub fn write_candidate(candidate: &Candidate, out: &mut Outbytes) -> Result<(), NoMemory>
    ensures ok { OnOk result (out.new ≡ out.old ++ spelled_candidate candidate.now) }
    ensures err { OnErr result (out.new ≡ out.old) }
{
    let length = out.len();
    let written = append_candidate(candidate, out);
    if written.is_err() {
        out.rewind(length);
    }
    written
}

/// Appends stamp, prior and group, and on failure a part of them.
#[tactic(auto, using(qu_base::proofs::Writing::writing_laws))]
fn append_candidate(candidate: &Candidate, out: &mut Outbytes) -> Result<(), NoMemory>
    ensures ok { OnOk result (out.new ≡ out.old ++ spelled_candidate candidate.now) }
    ensures err { OnErr result (take (length out.old) out.new ≡ out.old) }
{
    write_stamp(&candidate.stamp, out)?;
    write_stamp(&candidate.prior, out)?;
    append_group(&candidate.group, out)
}

/// Appends the count of the members and each of them, and on failure a part of this.
#[tactic(auto, using(qu_base::proofs::Writing::writing_laws))]
fn append_group(group: &Group, out: &mut Outbytes) -> Result<(), NoMemory>
    ensures ok { OnOk result (out.new ≡ out.old ++ spelled_group group.now) }
    ensures err { OnErr result (take (length out.old) out.new ≡ out.old) }
{
    out.count(group.pairs().len())?;
    append_members(group.pairs(), out)
}

/// Appends members one behind the other, and on failure a part of them.
#[tactic(auto, using(qu_base::proofs::Writing::writing_laws))]
fn append_members(members: &[(ObjectId, u64)], out: &mut Outbytes) -> Result<(), NoMemory>
    ensures ok { OnOk result (out.new ≡ out.old ++ flat_map spelled_member members.now) }
    ensures err { OnErr result (take (length out.old) out.new ≡ out.old) }
{
    for member in members {
        out.u16(member.0.0)?;
        out.u64(member.1)?;
    }
    Ok(())
}
