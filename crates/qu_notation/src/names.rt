ghost use Rattle.std.specs.Prelude.{◌≡◌, ◌++◌, OnOk, OnErr, string_bytes};
ghost use Rattle.qu_notation.specs.Names.{is_plain_byte, name_byte_text, written_name, entry_text, entries_text};

use super::bytes::put_byte;
use qu_base::{List, NoMemory};

/// Whether a byte of a name stands for itself.
pub(crate) fn is_plain_byte(byte: u8) -> bool
    ensures { result ≡ is_plain_byte byte }
{
    byte.is_ascii_alphanumeric() || byte == b'.' || byte == b'_' || byte == b'-'
}

/// Writes a name: its bytes by `%` and two digits each where they do not stand for themselves, or `%` for no bytes.
/// Without memory the text stays as it is.
pub fn put_name_text(text: &mut String, name: &[u8]) -> Result<(), NoMemory>
    ensures ok { OnOk result (string_bytes text.new ≡ string_bytes text.old ++ written_name name.now) }
    ensures err { OnErr result (string_bytes text.new ≡ string_bytes text.old) }
{
    let mut aside = String::new(*text.allocator());
    append_name(&mut aside, name)?;
    text.push_str(aside.as_str())?;
    Ok(())
}

/// Writes a name, and on failure a part of it.
#[tactic(auto, unfolding(crate::specs::Names::written_name))]
fn append_name(text: &mut String, name: &[u8]) -> Result<(), NoMemory>
    ensures { OnOk result (string_bytes text.new ≡ string_bytes text.old ++ written_name name.now) }
{
    if name.is_empty() {
        text.push_str("%")?;
    }
    for byte in name {
        put_name_byte(text, *byte)?;
    }
    Ok(())
}

fn put_name_byte(text: &mut String, byte: u8) -> Result<(), NoMemory>
    ensures { OnOk result (string_bytes text.new ≡ string_bytes text.old ++ name_byte_text byte) }
{
    if is_plain_byte(byte) {
        text.push(char::from(byte))?;
    } else {
        text.push_str("%")?;
        put_byte(text, byte)?;
    }
    Ok(())
}

/// Writes entries, `NAME=N` each, with commas between them, or `-` for no entries. Without memory the text stays as it
/// is.
pub fn put_entries_text(text: &mut String, entries: &[(List<u8>, u64)]) -> Result<(), NoMemory>
    ensures ok { OnOk result (string_bytes text.new ≡ string_bytes text.old ++ entries_text entries.now) }
    ensures err { OnErr result (string_bytes text.new ≡ string_bytes text.old) }
{
    let mut aside = String::new(*text.allocator());
    append_entries(&mut aside, entries)?;
    text.push_str(aside.as_str())?;
    Ok(())
}

/// Writes entries, and on failure a part of them.
#[tactic(auto, unfolding(crate::specs::Names::entries_text))]
fn append_entries(text: &mut String, entries: &[(List<u8>, u64)]) -> Result<(), NoMemory>
    ensures { OnOk result (string_bytes text.new ≡ string_bytes text.old ++ entries_text entries.now) }
{
    let Some((first, rest)) = entries.split_first() else {
        text.push_str("-")?;
        return Ok(());
    };
    put_entry(text, first)?;
    for entry in rest {
        text.push_str(",")?;
        put_entry(text, entry)?;
    }
    Ok(())
}

fn put_entry(text: &mut String, entry: &(List<u8>, u64)) -> Result<(), NoMemory>
    ensures { OnOk result (string_bytes text.new ≡ string_bytes text.old ++ entry_text entry.now) }
{
    let (name, number) = entry;
    append_name(text, name.as_slice())?;
    write!(text, "={number}")?;
    Ok(())
}
