//! States as bytes, by the formats of `specs/States.antt`.
ghost use Rattle.std.specs.Prelude.{◌≡◌, ◌++◌, None, length, take, OnOk, OnErr};
ghost use Rattle.std.specs.List.{flat_map};
ghost use Rattle.qu_objects.specs.States.{value_form, row_form, kept_form, link_form, links_form, state_form};

use super::{KeptRow, Link, ObjState, Value, write_answer};
use qu_base::{Kind, NoMemory, Outbytes};
use qu_stamp::write_stamp;

/// Appends a state. Without memory the text stays as it is.
///
/// It can be read again where clients and objects rise and are in their range, and each answer and stamp
/// can be read again.
pub fn write_state(state: &ObjState, out: &mut Outbytes) -> Result<(), NoMemory>
    ensures ok { OnOk result (out.new ≡ out.old ++ state_form.spell state.now) }
    ensures err { OnErr result (out.new ≡ out.old) }
{
    let start = out.len();
    let written = put_state(state, out);
    if written.is_err() {
        out.rewind(start);
    }
    written
}

/// Appends a state, and on failure a part of it.
#[tactic(auto, unfolding(crate::specs::States::state_form), using(qu_base::proofs::Writing::writing_laws))]
fn put_state(state: &ObjState, out: &mut Outbytes) -> Result<(), NoMemory>
    ensures ok { OnOk result (out.new ≡ out.old ++ state_form.spell state.now) }
    ensures err { OnErr result (take (length out.old) out.new ≡ out.old) }
{
    put_value(&state.value, out)?;
    put_kept(state.kept.as_slice(), out)?;
    put_links(state.links.as_slice(), out)
}

/// Appends the code of a value's kind, and the value; on failure a part of this.
#[tactic(auto, unfolding(crate::specs::States::value_form), using(qu_base::proofs::Writing::writing_laws))]
fn put_value(value: &Value, out: &mut Outbytes) -> Result<(), NoMemory>
    ensures ok { OnOk result (out.new ≡ out.old ++ value_form.spell value.now) }
    ensures err { OnErr result (take (length out.old) out.new ≡ out.old) }
{
    match value {
        Value::Counter(counter) => {
            out.u8(1)?;
            counter.write(out)
        }
        Value::Blob(blob) => {
            out.u8(2)?;
            blob.write(out)
        }
        Value::Dir(dir) => {
            out.u8(3)?;
            dir.write(out)
        }
    }
}

/// Appends the count of the rows, and each of them; on failure a part of this.
#[tactic(auto, unfolding(crate::specs::States::kept_form), using(qu_base::proofs::Writing::writing_laws))]
fn put_kept(kept: &[KeptRow], out: &mut Outbytes) -> Result<(), NoMemory>
    ensures ok { OnOk result (out.new ≡ out.old ++ kept_form.spell kept.now) }
    ensures err { OnErr result (take (length out.old) out.new ≡ out.old) }
{
    out.count(kept.len())?;
    put_rows(kept, out)
}

/// Appends rows one behind the other, and on failure a part of them.
#[tactic(auto, using(qu_base::proofs::Writing::writing_laws))]
fn put_rows(rows: &[KeptRow], out: &mut Outbytes) -> Result<(), NoMemory>
    ensures ok { OnOk result (out.new ≡ out.old ++ flat_map (row_form None).spell rows.now) }
    ensures err { OnErr result (take (length out.old) out.new ≡ out.old) }
{
    for row in rows {
        put_row(row, out)?;
    }
    Ok(())
}

/// Appends a row, and on failure a part of it.
#[tactic(auto, unfolding(crate::specs::States::row_form), using(qu_base::proofs::Writing::writing_laws))]
fn put_row(row: &KeptRow, out: &mut Outbytes) -> Result<(), NoMemory>
    ensures ok { OnOk result (out.new ≡ out.old ++ (row_form None).spell row.now) }
    ensures err { OnErr result (take (length out.old) out.new ≡ out.old) }
{
    out.u16(row.client.0)?;
    out.u64(row.number)?;
    out.put(&row.act.0)?;
    write_answer(&row.answer, out)
}

/// Appends the count of the links, and each of them; on failure a part of this.
#[tactic(auto, unfolding(crate::specs::States::links_form), using(qu_base::proofs::Writing::writing_laws))]
fn put_links(links: &[Link], out: &mut Outbytes) -> Result<(), NoMemory>
    ensures ok { OnOk result (out.new ≡ out.old ++ links_form.spell links.now) }
    ensures err { OnErr result (take (length out.old) out.new ≡ out.old) }
{
    out.count(links.len())?;
    put_each_link(links, out)
}

/// Appends links one behind the other, and on failure a part of them.
#[tactic(auto, using(qu_base::proofs::Writing::writing_laws))]
fn put_each_link(links: &[Link], out: &mut Outbytes) -> Result<(), NoMemory>
    ensures ok { OnOk result (out.new ≡ out.old ++ flat_map (link_form None).spell links.now) }
    ensures err { OnErr result (take (length out.old) out.new ≡ out.old) }
{
    for link in links {
        put_link(link, out)?;
    }
    Ok(())
}

/// Appends a link, and on failure a part of it.
#[tactic(auto, unfolding(crate::specs::States::link_form), using(qu_base::proofs::Writing::writing_laws))]
fn put_link(link: &Link, out: &mut Outbytes) -> Result<(), NoMemory>
    ensures ok { OnOk result (out.new ≡ out.old ++ (link_form None).spell link.now) }
    ensures err { OnErr result (take (length out.old) out.new ≡ out.old) }
{
    out.u16(link.object.0)?;
    write_stamp(&link.stamp, out)
}
