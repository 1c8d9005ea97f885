ghost use Rattle.std.specs.Prelude.{◌≡◌, ◌++◌, ◌≤◌, length};
ghost use Rattle.sha2.specs.Sha256.{sha256};
ghost use Rattle.qu_seal.specs.Authenticating.{short_key, filled, padded, hmac_of};

use super::{BLOCK, IPAD, OPAD};
use sha2::{Digest as Hasher, Sha256};

/// The HMAC of a text under a key, by SHA-256, as RFC 2104 defines it. It takes no memory.
#[tactic(auto, unfolding(crate::specs::Authenticating::hmac_of))]
pub fn hmac(key: &[u8], text: &[u8]) -> [u8; 32]
    ensures { result ≡ hmac_of key.now text.now }
{
    let block = block_of(key);
    let inner = digest_behind(padded(block, IPAD), text);
    digest_behind(padded(block, OPAD), &inner)
}

/// The block with a pad in each byte.
fn padded(block: [u8; BLOCK], pad: u8) -> [u8; BLOCK]
    ensures { result ≡ padded pad block }
{
    let mut padded = block;
    for byte in &mut padded {
        *byte ^= pad;
    }
    padded
}

/// The digest of a block with a text behind it.
fn digest_behind(block: [u8; BLOCK], text: &[u8]) -> [u8; 32]
    ensures { result ≡ sha256 (block ++ text.now) }
{
    let mut hasher = Sha256::new();
    hasher.update(block);
    hasher.update(text);
    hasher.finalize()
}

/// The key as one block.
fn block_of(key: &[u8]) -> [u8; BLOCK]
    ensures { result ≡ filled (short_key key.now) }
{
    if key.len() > BLOCK {
        fill(&Sha256::digest(key))
    } else {
        fill(key)
    }
}

/// A key of at most one block, filled with zero bytes.
fn fill(key: &[u8]) -> [u8; BLOCK]
    requires { length key.now ≤ BLOCK }
    ensures { result ≡ filled key.now }
{
    let mut block = [0; BLOCK];
    block[..key.len()].copy_from_slice(key);
    block
}
