ghost use Rattle.std.specs.Prelude.{◌≡◌};
ghost use Rattle.qu_seal.specs.Digesting.{digest_of};

use qu_base::Digest;
use sha2::{Digest as Hasher, Sha256};

/// The SHA-256 digest of the tag byte and, behind it, the text, as FIPS 180-4 defines it. It takes
/// no memory.
///
/// The standard defines it for fewer than 2^61 bytes; beyond, the count of bits is taken modulo 2^64.
///
/// That two different texts, or one text under two tags, have one digest is nowhere excluded.
pub fn digest(tag: u8, text: &[u8]) -> Digest
    ensures { result.0 ≡ digest_of tag text.now }
{
    let mut hasher = Sha256::new();
    hasher.update([tag]);
    hasher.update(text);
    Digest(hasher.finalize())
}
