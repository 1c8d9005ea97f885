//! Frames whose HMAC their sender makes for one receiver.
ghost use Rattle.std.specs.Prelude.{◌≡◌, ◌++◌, IfOk};
ghost use Rattle.qu_frames.specs.Signing.{sender, mac_of, before_mac, text_digest, signed, is_signed};

use super::{Frame, encode};
use qu_base::{Digest, List, NoMemory, Outbytes, Party};
use qu_seal::{FRAME_TAG, KeyRing, digest};
use std::alloc::Global;

impl Frame {
    /// Who sent it, as it says.
    pub fn sender(&self) -> Party
        ensures { result ≡ sender self.now }
    {
        match self {
            Frame::Request { client, .. } => Party::Client(*client),
            Frame::Reply { replica, .. }
            | Frame::Fetch { replica, .. }
            | Frame::Fetched { replica, .. } => Party::Replica(*replica),
        }
    }

    /// Its text with the HMAC that its sender makes for this receiver, in the place of its own.
    #[tactic(auto, unfolding(crate::specs::Signing::signed))]
    pub fn signed(&self, alloc: Global, keys: &KeyRing, to: Party) -> Result<List<u8>, NoMemory>
        ensures { IfOk result (λ text. text ≡ signed keys.now to self.now) }
    {
        let text = encode(alloc, self)?;
        let mac = keys.seal_for(self.sender(), to, &text_digest(text.as_slice()));
        with_mac(alloc, text.as_slice(), &mac)
    }

    /// Whether its HMAC is right for this receiver, where this is its text.
    #[tactic(auto, unfolding(crate::specs::Signing::is_signed))]
    pub fn is_signed(&self, keys: &KeyRing, to: Party, text: &[u8]) -> bool
        ensures { result ≡ is_signed keys.now to text.now self.now }
    {
        keys.verifies(self.sender(), to, &text_digest(text), self.mac())
    }

    /// The HMAC at its end.
    pub fn mac(&self) -> &[u8; 32]
        ensures { result.now ≡ mac_of self.now }
    {
        match self {
            Frame::Request { mac, .. }
            | Frame::Reply { mac, .. }
            | Frame::Fetch { mac, .. }
            | Frame::Fetched { mac, .. } => mac,
        }
    }
}

/// The text of a frame with this HMAC in the place of its own.
pub fn with_mac(alloc: Global, text: &[u8], mac: &[u8; 32]) -> Result<List<u8>, NoMemory>
    ensures { IfOk result (λ signed. signed ≡ before_mac text.now ++ mac.now) }
{
    let mut out = Outbytes::with_room(alloc, text.len())?;
    out.put(before_mac(text))?;
    out.put(mac)?;
    Ok(out.done())
}

/// The digest of the bytes before the HMAC, of which the HMAC is made.
#[tactic(auto, unfolding(crate::specs::Signing::text_digest))]
pub fn text_digest(text: &[u8]) -> Digest
    ensures { result ≡ text_digest text.now }
{
    digest(FRAME_TAG, before_mac(text))
}

/// The bytes before the HMAC, which are the last 32.
pub fn before_mac(text: &[u8]) -> &[u8]
    ensures { result.now ≡ before_mac text.now }
{
    &text[..text.len().saturating_sub(32)]
}
