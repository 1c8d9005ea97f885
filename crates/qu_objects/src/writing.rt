//! Single operations and items as bytes, by the formats of `specs/Formats.antt`.
ghost use Rattle.std.specs.Prelude.{◌≡◌, ◌++◌, length, take, OnOk, OnErr};
ghost use Rattle.std.specs.Int.{w8, w64, to_be_bytes};
ghost use Rattle.qu_base.specs.Texts.{listing_form};
ghost use Rattle.qu_objects.specs.Formats.{method_form, ask_form, item_form, any_name};

use super::{Ask, Method};
use qu_base::{Item, List, NoMemory, Outbytes, put_content, put_entries, put_name};

/// Appends an update: its code, and what it carries; on failure a part of this.
#[tactic(auto, unfolding(crate::specs::Formats::method_form), using(qu_base::proofs::Writing::writing_laws))]
pub(crate) fn put_method(method: &Method, out: &mut Outbytes) -> Result<(), NoMemory>
    ensures ok { OnOk result (out.new ≡ out.old ++ method_form.spell method.now) }
    ensures err { OnErr result (take (length out.old) out.new ≡ out.old) }
{
    match method {
        Method::Add(more) => put_word(1, *more, out),
        Method::Take(fewer) => put_word(2, *fewer, out),
        Method::Put(content) => {
            out.u8(3)?;
            put_content(content.as_slice(), out)
        }
        Method::Append(more) => {
            out.u8(4)?;
            put_content(more.as_slice(), out)
        }
        Method::Link(name, number) => {
            out.u8(5)?;
            put_name(name.as_slice(), out)?;
            out.u64(*number)
        }
        Method::Unlink(name) => {
            out.u8(6)?;
            put_name(name.as_slice(), out)
        }
    }
}

/// Appends a code and a number, and on failure a part of this.
#[tactic(auto, using(qu_base::proofs::Writing::writing_laws))]
fn put_word(code: u8, number: u64, out: &mut Outbytes) -> Result<(), NoMemory>
    ensures ok { OnOk result (out.new ≡ out.old ++ (to_be_bytes w8 code ++ to_be_bytes w64 number)) }
    ensures err { OnErr result (take (length out.old) out.new ≡ out.old) }
{
    out.u8(code)?;
    out.u64(number)
}

/// Appends an ask: its code, and maybe a name; on failure a part of this.
#[tactic(auto, unfolding(crate::specs::Formats::ask_form), using(qu_base::proofs::Writing::writing_laws))]
pub(crate) fn put_ask(ask: &Ask, out: &mut Outbytes) -> Result<(), NoMemory>
    ensures ok { OnOk result (out.new ≡ out.old ++ ask_form.spell ask.now) }
    ensures err { OnErr result (take (length out.old) out.new ≡ out.old) }
{
    match ask {
        Ask::Read => out.u8(1),
        Ask::Cat => out.u8(2),
        Ask::Find(name) => {
            out.u8(3)?;
            put_name(name.as_slice(), out)
        }
        Ask::All => out.u8(4),
    }
}

/// Appends an item, and on failure a part of it.
#[tactic(auto, unfolding(crate::specs::Formats::item_form), using(qu_base::proofs::Writing::writing_laws))]
pub(crate) fn put_item(item: &Item, out: &mut Outbytes) -> Result<(), NoMemory>
    ensures ok { OnOk result (out.new ≡ out.old ++ item_form.spell item.now) }
    ensures err { OnErr result (take (length out.old) out.new ≡ out.old) }
{
    match item {
        Item::Number(value) => put_word(1, *value, out),
        Item::Bytes(content) => {
            out.u8(2)?;
            put_content(content.as_slice(), out)
        }
        Item::Entries(entries) => {
            out.u8(3)?;
            put_listing(entries.as_slice(), out)
        }
    }
}

/// Appends a listing, which has any names; on failure a part of it.
fn put_listing(entries: &[(List<u8>, u64)], out: &mut Outbytes) -> Result<(), NoMemory>
    ensures ok { OnOk result (out.new ≡ out.old ++ (listing_form any_name).spell entries.now) }
    ensures err { OnErr result (take (length out.old) out.new ≡ out.old) }
{
    put_entries(entries, out)
}
