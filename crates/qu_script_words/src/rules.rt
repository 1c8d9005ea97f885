ghost use Rattle.std.specs.Prelude.{◌≡◌, ◌≤◌, ◌<◌, length, IfOk, IsTrue, nat_le};
ghost use Rattle.qu_base.specs.declared.limits.TheConstants.{CONTENT_LIMIT, NAME_LIMIT, OBJECT_IDS};
ghost use Rattle.qu_script_words.specs.Meaning.{IsReadAs};
ghost use Rattle.qu_script_words.specs.Rules.{number_rule, ranged_rule, at_most, hex_rule, content_rule, name_rule, object_rule};

use super::{BadKind, LineFail};
use qu_base::{CONTENT_LIMIT, List, NAME_LIMIT, OBJECT_IDS, ObjectId};
use qu_notation::{read_bytes, read_name as read_name_bytes, read_number as read_digits};
use std::alloc::Global;

/// A number below 2^64.
pub fn read_number(word: &[u8]) -> Result<u64, BadKind>
    ensures { result ≡ number_rule word.now }
{
    match read_digits(word) {
        Some(number) => Ok(number),
        None => Err(BadKind::BadNumber),
    }
}

/// A number from a least to a greatest one.
pub fn read_ranged(least: u64, greatest: u64, word: &[u8]) -> Result<u64, BadKind>
    ensures value { result ≡ ranged_rule least greatest word.now }
    ensures in_range { IfOk result (λ number. (least ≤ number) × (number ≤ greatest)) }
{
    let number = read_number(word)?;
    if least <= number && number <= greatest {
        Ok(number)
    } else {
        Err(BadKind::OverLimit)
    }
}

/// One of so many objects.
pub fn read_object(objects: usize, word: &[u8]) -> Result<ObjectId, BadKind>
    ensures value { result ≡ object_rule objects word.now }
    ensures known { IfOk result (λ object. object.0 < OBJECT_IDS) }
{
    let number = read_number(word)?;
    if number >= u64::from(OBJECT_IDS) {
        return Err(BadKind::OverLimit);
    }
    if number >= objects as u64 {
        return Err(BadKind::NoSuchObject);
    }
    Ok(ObjectId(number as u16))
}

/// Bytes by their hexadecimal digits.
pub fn read_hex(alloc: Global, word: &[u8]) -> Result<List<u8>, LineFail>
    ensures { IsReadAs (λ bytes. bytes) result (hex_rule word.now) }
{
    match read_bytes(alloc, word)? {
        Some(bytes) => Ok(bytes),
        None => Err(LineFail::Bad(BadKind::BadHex)),
    }
}

/// At most `CONTENT_LIMIT` bytes by their hexadecimal digits.
pub fn read_content(alloc: Global, word: &[u8]) -> Result<List<u8>, LineFail>
    ensures value { IsReadAs (λ bytes. bytes) result (content_rule word.now) }
    ensures sized { IfOk result (λ bytes. IsTrue (nat_le (length bytes) CONTENT_LIMIT)) }
{
    let bytes = read_hex(alloc, word)?;
    Ok(at_most(usize::from(CONTENT_LIMIT), bytes)?)
}

/// A name of at most `NAME_LIMIT` bytes.
pub fn read_name(alloc: Global, word: &[u8]) -> Result<List<u8>, LineFail>
    ensures value { IsReadAs (λ name. name) result (name_rule word.now) }
    ensures sized { IfOk result (λ name. IsTrue (nat_le (length name) NAME_LIMIT)) }
{
    match read_name_bytes(alloc, word)? {
        Some(name) => Ok(at_most(usize::from(NAME_LIMIT), name)?),
        None => Err(LineFail::Bad(BadKind::BadName)),
    }
}

/// The bytes, where they are no more than the limit.
fn at_most(limit: usize, bytes: List<u8>) -> Result<List<u8>, BadKind>
    ensures value { result ≡ at_most limit bytes }
    ensures sized { IfOk result (λ bytes. IsTrue (nat_le (length bytes) limit)) }
{
    if bytes.len() <= limit {
        Ok(bytes)
    } else {
        Err(BadKind::OverLimit)
    }
}
