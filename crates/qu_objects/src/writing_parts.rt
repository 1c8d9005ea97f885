//! The parts of acts and of queries as bytes.
ghost use Rattle.std.specs.Prelude.{◌≡◌, ◌++◌, Bool, length, take, OnOk, OnErr};
ghost use Rattle.std.specs.List.{flat_map};
ghost use Rattle.qu_base.specs.declared.party.ObjectId.{ObjectId as Object};
ghost use Rattle.qu_objects.specs.Formats.{method_form, ask_form, spelled_object, act_form, query_form};

use super::writing::{put_ask, put_method};
use super::{Act, Ask, Method, Query};
use qu_base::{NoMemory, ObjectId, Outbytes};

/// Appends the parts of an act, from their count on. Without memory the text stays as it is.
pub fn write_act(act: &Act, out: &mut Outbytes) -> Result<(), NoMemory>
    ensures ok { (known : Object → Bool) → OnOk result (out.new ≡ out.old ++ (act_form known).spell act.now) }
    ensures err { OnErr result (out.new ≡ out.old) }
{
    let start = out.len();
    let written = put_act(act, out);
    if written.is_err() {
        out.rewind(start);
    }
    written
}

/// Appends the parts of an act, and on failure a part of them.
#[tactic(auto, unfolding(crate::specs::Formats::act_form), using(qu_base::proofs::Writing::writing_laws))]
fn put_act(act: &Act, out: &mut Outbytes) -> Result<(), NoMemory>
    ensures ok { (known : Object → Bool) → OnOk result (out.new ≡ out.old ++ (act_form known).spell act.now) }
    ensures err { OnErr result (take (length out.old) out.new ≡ out.old) }
{
    let parts = act.parts().as_slice();
    out.count(parts.len())?;
    put_method_parts(parts, out)
}

/// Appends parts of an act, and on failure a part of them.
#[tactic(auto, using(qu_base::proofs::Writing::writing_laws))]
fn put_method_parts(parts: &[(ObjectId, Method)], out: &mut Outbytes) -> Result<(), NoMemory>
    ensures ok { OnOk result (out.new ≡ out.old ++ flat_map (spelled_object method_form) parts.now) }
    ensures err { OnErr result (take (length out.old) out.new ≡ out.old) }
{
    for part in parts {
        out.u16(part.0.0)?;
        put_method(&part.1, out)?;
    }
    Ok(())
}

/// Appends the parts of a query, from their count on. Without memory the text stays as it is.
pub fn write_query(query: &Query, out: &mut Outbytes) -> Result<(), NoMemory>
    ensures ok { (known : Object → Bool) → OnOk result (out.new ≡ out.old ++ (query_form known).spell query.now) }
    ensures err { OnErr result (out.new ≡ out.old) }
{
    let start = out.len();
    let written = put_query(query, out);
    if written.is_err() {
        out.rewind(start);
    }
    written
}

/// Appends the parts of a query, and on failure a part of them.
#[tactic(auto, unfolding(crate::specs::Formats::query_form), using(qu_base::proofs::Writing::writing_laws))]
fn put_query(query: &Query, out: &mut Outbytes) -> Result<(), NoMemory>
    ensures ok { (known : Object → Bool) → OnOk result (out.new ≡ out.old ++ (query_form known).spell query.now) }
    ensures err { OnErr result (take (length out.old) out.new ≡ out.old) }
{
    let parts = query.parts().as_slice();
    out.count(parts.len())?;
    put_ask_parts(parts, out)
}

/// Appends parts of a query, and on failure a part of them.
#[tactic(auto, using(qu_base::proofs::Writing::writing_laws))]
fn put_ask_parts(parts: &[(ObjectId, Ask)], out: &mut Outbytes) -> Result<(), NoMemory>
    ensures ok { OnOk result (out.new ≡ out.old ++ flat_map (spelled_object ask_form) parts.now) }
    ensures err { OnErr result (take (length out.old) out.new ≡ out.old) }
{
    for part in parts {
        out.u16(part.0.0)?;
        put_ask(&part.1, out)?;
    }
    Ok(())
}
