ghost use Rattle.std.specs.Prelude.{◌≡◌, IfOk, IfSome};
ghost use Rattle.qu_audit.specs.Digesting.{digest_of_text, same_text};

use qu_base::{Digest, List, NoMemory, Shared};
use qu_seal::digest;
use std::alloc::Global;
use std::marker::Model;

/// A text under the tag of its kind, and its digest. The bytes can be held several times.
pub struct Text {
    tag: u8,
    bytes: Shared<List<u8>>,
    digest: Digest,
}

/// By hand, so that a value is let go in one step wherever that is.
impl Drop for Text {
    fn drop(self) {
        let Text {
            tag: _,
            bytes: _,
            digest: _,
        } = self;
    }
}

impl Model for Text {
    ghost use Rattle.std.specs.Prelude.{◌≡◌};
    ghost use Rattle.qu_claims.specs.Digested.{Text as Digested};
    ghost use Rattle.qu_audit.specs.Digesting.{digest_of_text};

    ghost Value = { Digested };

    ghost view = { λ text. record { tag = text.tag; bytes = text.bytes } };

    ghost invariant = { λ text. text.digest ≡ digest_of_text (record { tag = text.tag; bytes = text.bytes }) };
}

impl Text {
    /// The text of these bytes under this tag, with its digest.
    pub fn new(alloc: Global, tag: u8, bytes: List<u8>) -> Result<Text, NoMemory>
        ensures { IfOk result (λ text. text ≡ record { tag = tag; bytes = bytes }) }
    {
        let digest = digest(tag, bytes.as_slice());
        let bytes = Shared::new(alloc, bytes)?;
        Ok(Text { tag, bytes, digest })
    }

    /// The tag of its kind.
    pub fn tag(&self) -> u8
        ensures { result ≡ self.now.tag }
    {
        self.tag
    }

    /// Its bytes, without the tag.
    pub fn bytes(&self) -> &[u8]
        ensures { result.now ≡ self.now.bytes }
    {
        self.bytes.get().as_slice()
    }

    /// The digest of the bytes under the tag.
    pub fn digest(&self) -> Digest
        ensures { result ≡ digest_of_text self.now }
    {
        self.digest
    }

    /// The text, held once more.
    pub fn share(&self) -> Result<Text, NoMemory>
        ensures { IfOk result (λ text. text ≡ self.now) }
    {
        let bytes = self.bytes.share()?;
        Ok(Text {
            tag: self.tag,
            bytes,
            digest: self.digest,
        })
    }

    /// The text, held once more, where it has these bytes under this tag.
    #[tactic(auto, using(crate::proofs::Equalities::decides_text))]
    pub fn if_same(&self, tag: u8, bytes: &[u8]) -> Result<Option<Text>, NoMemory>
        ensures { IfOk result (λ found. IfSome found (λ text. text ≡ record { tag = tag; bytes = bytes.now })) }
    {
        if self.is(tag, bytes) {
            return Ok(Some(self.share()?));
        }
        Ok(None)
    }

    /// Whether the two are one text under one tag.
    pub fn is_same(&self, other: &Text) -> bool
        ensures { result ≡ same_text self.now other.now }
    {
        self.is(other.tag, other.bytes())
    }

    /// Whether it has these bytes under this tag.
    fn is(&self, tag: u8, bytes: &[u8]) -> bool
        ensures { result ≡ same_text self.now (record { tag = tag; bytes = bytes.now }) }
    {
        self.tag == tag && self.bytes() == bytes
    }
}
