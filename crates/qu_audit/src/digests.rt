ghost use Rattle.std.specs.Prelude.{◌≡◌, [], ◌∷◌, None, OnOk, IfOk, IfSome};
ghost use Rattle.qu_base.specs.declared.party.Digest.{Digest as Key};
ghost use Rattle.qu_claims.specs.Digested.{signed_text, history_text};
ghost use Rattle.qu_audit.specs.Digests.{look, Notes, clash, first_clash};

use super::text::Text;
use qu_base::{Digest, List, NoMemory};
use qu_frames::before_mac;
use qu_history::Sealed;
use qu_seal::{FRAME_TAG, HISTORY_TAG};
use qu_trace::earlier;
use std::alloc::Global;
use std::collections::HashMap;

/// A text that was digested, and the event that digested it first.
pub struct Seen {
    pub event: u64,
    pub text: Text,
}

/// By hand, so that a value is let go in one step wherever that is.
impl Drop for Seen {
    fn drop(self) {
        let Seen { event: _, text: _ } = self;
    }
}

/// How many bytes of each end of a text are in its sample.
const SAMPLED: usize = 32;

/// Of each digest the text that first had it.
pub struct Digests {
    pub seen: HashMap<Digest, Seen>,
    /// Of each sample the digest of the last text that had it, by which that text is found without its digest.
    pub sampled: HashMap<Digest, Digest>,
}

/// By hand, so that a value is let go in one step wherever that is.
impl Drop for Digests {
    fn drop(self) {
        let Digests {
            seen: _,
            sampled: _,
        } = self;
    }
}

impl Digests {
    /// No text was digested yet.
    pub fn new(alloc: Global) -> Digests
        ensures { (digest : Key) → look result digest ≡ None }
    {
        Digests {
            seen: HashMap::new(alloc),
            sampled: HashMap::new(alloc),
        }
    }

    /// Notes that these texts were digested at this event.
    pub fn note_all(&mut self, event: u64, texts: &[Text]) -> Result<(), NoMemory>
        ensures { OnOk result (Notes (look self.old) (look self.new) event texts.now) }
    {
        for text in texts {
            self.note(event, text)?;
        }
        Ok(())
    }

    /// Notes it of one text; nothing is noted where its digest was seen before.
    fn note(&mut self, event: u64, text: &Text) -> Result<(), NoMemory>
        ensures { OnOk result (Notes (look self.old) (look self.new) event (text.now ∷ [])) }
    {
        let digest = text.digest();
        if self.seen.contains_key(&digest) {
            return Ok(());
        }
        let text = text.share()?;
        self.sampled
            .insert(sample(text.tag(), text.bytes()), digest)?;
        self.seen.insert(digest, Seen { event, text })?;
        Ok(())
    }

    /// The text with these bytes. Where it was noted its digest is not computed anew.
    pub fn text(&self, alloc: Global, tag: u8, bytes: List<u8>) -> Result<Text, NoMemory>
        ensures { IfOk result (λ text. text ≡ record { tag = tag; bytes = bytes }) }
    {
        match self.noted(tag, bytes.as_slice())? {
            Some(text) => Ok(text),
            None => Text::new(alloc, tag, bytes),
        }
    }

    /// The text of a frame up to its HMAC.
    pub fn signed_text(&self, alloc: Global, text: &[u8]) -> Result<Text, NoMemory>
        ensures { IfOk result (λ digested. digested ≡ signed_text text.now) }
    {
        let bytes = before_mac(text);
        match self.noted(FRAME_TAG, bytes)? {
            Some(text) => Ok(text),
            None => Text::new(alloc, FRAME_TAG, List::from_clones(alloc, bytes)?),
        }
    }

    /// The text of a history.
    pub fn history_text(&self, alloc: Global, sealed: &Sealed) -> Result<Text, NoMemory>
        ensures { IfOk result (λ digested. digested ≡ history_text sealed.now) }
    {
        let bytes = sealed.history.text(alloc)?;
        self.text(alloc, HISTORY_TAG, bytes)
    }

    /// The text with these bytes under this tag, where it was noted.
    fn noted(&self, tag: u8, bytes: &[u8]) -> Result<Option<Text>, NoMemory>
        ensures { IfOk result (λ found. IfSome found (λ text. text ≡ record { tag = tag; bytes = bytes.now })) }
    {
        match self.last_like(tag, bytes) {
            Some(seen) => seen.text.if_same(tag, bytes),
            None => Ok(None),
        }
    }

    /// The last text that was noted with the sample of this one.
    fn last_like(&self, tag: u8, bytes: &[u8]) -> Option<&Seen> {
        let digest = self.sampled.get(&sample(tag, bytes))?;
        self.seen.get(digest)
    }

    /// The earliest event that digested another text with the digest of one of these, all of which were noted.
    #[tactic(auto, using(crate::proofs::Clashes::first_clash_more, crate::proofs::Clashes::first_clash_end))]
    pub fn first_clash(&self, texts: &[Text]) -> Option<u64>
        ensures { result ≡ first_clash (look self.now) texts.now }
    {
        let mut first = None;
        for text in texts {
            first = earlier(first, self.clash(text));
        }
        first
    }

    /// The event of another text that was seen with the digest of this one.
    fn clash(&self, text: &Text) -> Option<u64>
        ensures { result ≡ clash (look self.now) text.now }
    {
        match self.seen.get(&text.digest()) {
            Some(seen) if !seen.text.is_same(text) => Some(seen.event),
            Some(_) | None => None,
        }
    }
}

/// What both ends of a text and its tag make together, by which it is looked up; texts may share one.
fn sample(tag: u8, bytes: &[u8]) -> Digest {
    let count = bytes.len().min(SAMPLED);
    let mut ends = [0; SAMPLED];
    ends[..count].copy_from_slice(&bytes[..count]);
    ends[0] ^= tag;
    for place in 0..count {
        ends[place] ^= bytes[bytes.len() - 1 - place];
    }
    Digest(ends)
}
