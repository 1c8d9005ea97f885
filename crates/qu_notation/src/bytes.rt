ghost use Rattle.std.specs.Prelude.{◌≡◌, ◌++◌, IfOk, OnOk, OnErr, string_bytes};
ghost use Rattle.qu_notation.specs.Bytes.{hex_bytes, byte_text, bytes_text};

use hex::FromHexError;
use qu_base::{List, NoMemory};
use std::alloc::Global;

/// The bytes that a word writes, by two hexadecimal digits each of either case, or `-` for no bytes.
/// `None` of any other word; the error is want of memory.
#[tactic(auto, unfolding(crate::specs::Bytes::hex_bytes))]
pub fn read_bytes(alloc: Global, word: &[u8]) -> Result<Option<List<u8>>, NoMemory>
    ensures { IfOk result (λ bytes. bytes ≡ hex_bytes word.now) }
{
    if word.is_empty() {
        return Ok(None);
    }
    if word == b"-".as_slice() {
        return Ok(Some(List::new(alloc)));
    }
    match hex::decode(alloc, word) {
        Ok(bytes) => Ok(Some(List::from(bytes))),
        Err(FromHexError::OutOfMemory) => Err(NoMemory),
        Err(_) => Ok(None),
    }
}

/// Writes bytes by two lower-case hexadecimal digits each, or `-` for no bytes. Without memory the text stays as it is.
pub fn put_bytes_text(text: &mut String, bytes: &[u8]) -> Result<(), NoMemory>
    ensures ok { OnOk result (string_bytes text.new ≡ string_bytes text.old ++ bytes_text bytes.now) }
    ensures err { OnErr result (string_bytes text.new ≡ string_bytes text.old) }
{
    let mut aside = String::new(*text.allocator());
    append_bytes(&mut aside, bytes)?;
    text.push_str(aside.as_str())?;
    Ok(())
}

/// Writes bytes, and on failure a part of them.
#[tactic(auto, unfolding(crate::specs::Bytes::bytes_text))]
fn append_bytes(text: &mut String, bytes: &[u8]) -> Result<(), NoMemory>
    ensures { OnOk result (string_bytes text.new ≡ string_bytes text.old ++ bytes_text bytes.now) }
{
    if bytes.is_empty() {
        text.push_str("-")?;
    }
    for byte in bytes {
        put_byte(text, *byte)?;
    }
    Ok(())
}

/// Writes a byte by two hexadecimal digits.
pub(crate) fn put_byte(text: &mut String, byte: u8) -> Result<(), NoMemory>
    ensures { OnOk result (string_bytes text.new ≡ string_bytes text.old ++ byte_text byte) }
{
    let (high, low) = (byte / 16, byte % 16);
    write!(text, "{high:x}{low:x}")?;
    Ok(())
}
