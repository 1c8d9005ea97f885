//! Requests that are read once for all to whom they go.
ghost use Rattle.std.specs.Prelude.{◌≡◌, ◌≤◌, ◌↔◌, false, if◌then◌else◌, length, Some, None, Ok, IfOk, IfSome, IsNone, IsTrue};
ghost use Rattle.qu_frames.specs.Decoding.{decoded};
ghost use Rattle.qu_frames.specs.Signing.{before_mac, brought};
ghost use Rattle.qu_frames.specs.Reading.{is_request, own_mac, request_with};

use super::{Body, Frame, before_mac, text_digest};
use qu_base::{ClientId, Cursor, Digest, List, NoMemory, Party};
use qu_history::DigestedSets;
use qu_seal::KeyRing;
use std::alloc::Global;
use std::marker::Model;

/// A request as a text says it, with the digests by which its HMACs are verified. Texts that differ in their last
/// 32 bytes alone say the same, so that one reading serves all replicas to which a client sends the request.
pub struct Reading {
    /// The bytes before the HMAC.
    front: List<u8>,
    /// Of these bytes.
    digest: Digest,
    client: ClientId,
    number: u64,
    round: u8,
    sets: DigestedSets,
    body: Body,
}

/// By hand, so that a value is let go in one step wherever that is.
impl Drop for Reading {
    fn drop(self) {
        let Reading {
            front: _,
            digest: _,
            client: _,
            number: _,
            round: _,
            sets: _,
            body: _,
        } = self;
    }
}

impl Model for Reading {
    ghost use Rattle.std.specs.Prelude.{◌≡◌};
    ghost use Rattle.qu_seal.specs.declared.constants.TheConstants.{FRAME_TAG};
    ghost use Rattle.qu_seal.specs.Digesting.{digest_of};
    ghost use Rattle.qu_frames.specs.Reading.{ReadRequest, IsReadRequest};

    ghost Value = { ReadRequest };

    ghost view = { λ reading. record {
      front = reading.front;
      client = reading.client;
      number = reading.number;
      round = reading.round;
      sets = reading.sets;
      body = reading.body;
    } };

    ghost invariant = { λ reading. (reading.digest ≡ record { 0 = digest_of FRAME_TAG reading.front })
        × IsReadRequest (record {
          front = reading.front;
          client = reading.client;
          number = reading.number;
          round = reading.round;
          sets = reading.sets;
          body = reading.body;
        }) };
}

impl Reading {
    /// The request of a frame, where this is its text. None exactly of another frame.
    #[tactic(auto, using(crate::proofs::Readings::request_is_read))]
    pub fn of_frame(alloc: Global, frame: &Frame, text: &[u8]) -> Result<Option<Reading>, NoMemory>
        requires { decoded text.now ≡ Ok frame.now }
        ensures none { IfOk result (λ found. IsNone found ↔ is_request (decoded text.now) ≡ false) }
        ensures front { IfOk result (λ found. IfSome found (λ reading. reading.front ≡ before_mac text.now)) }
    {
        Cursor::new(text).are_bytes();
        match frame {
            Frame::Request {
                client,
                number,
                round,
                sets,
                body,
                ..
            } => Ok(Some(Reading {
                front: List::from_clones(alloc, before_mac(text))?,
                digest: text_digest(text),
                client: *client,
                number: *number,
                round: *round,
                sets: DigestedSets::of(alloc, sets.copy()?)?,
                body: body.copy(alloc)?,
            })),
            Frame::Reply { .. } | Frame::Fetch { .. } | Frame::Fetched { .. } => Ok(None),
        }
    }

    /// Whether a text says this request: it has the same bytes before its HMAC.
    pub fn is_of(&self, text: &[u8]) -> bool
        ensures { IsTrue result ↔ (before_mac text.now ≡ self.now.front) }
    {
        before_mac(text) == self.front.as_slice()
    }

    /// Whether a text that says this request brings it to a party: its own HMAC is right for the party.
    #[tactic(auto, using(crate::proofs::Readings::brought_by))]
    pub fn is_brought(&self, keys: &KeyRing, me: Party, text: &[u8]) -> bool
        requires { before_mac text.now ≡ self.now.front }
        ensures { brought keys.now me text.now
            ≡ (if result then Some (request_with self.now (own_mac text.now)) else None) }
    {
        let sender = Party::Client(self.client);
        keys.verifies(sender, me, &self.digest, &own_mac(text))
    }

    /// The client that asks.
    pub fn client(&self) -> ClientId
        ensures { result ≡ self.now.client }
    {
        self.client
    }

    /// The number of its operation.
    pub fn number(&self) -> u64
        ensures { result ≡ self.now.number }
    {
        self.number
    }

    /// The round of the operation.
    pub fn round(&self) -> u8
        ensures { result ≡ self.now.round }
    {
        self.round
    }

    /// The histories that the client was shown.
    pub fn sets(&self) -> &DigestedSets
        ensures { result.now ≡ self.now.sets }
    {
        &self.sets
    }

    /// What is asked for.
    pub fn body(&self) -> &Body
        ensures { result.now ≡ self.now.body }
    {
        &self.body
    }
}

/// The frame of a text that says what this request says, which is the frame of the first text: the two share its sets.
/// None of any other text, and of any other frame.
pub fn said_again(
    alloc: Global,
    frame: &Frame,
    first: &[u8],
    text: &[u8],
) -> Result<Option<Frame>, NoMemory>
    requires { decoded first.now ≡ Ok frame.now }
    ensures value { IfOk result (λ found. IfSome found (λ again. decoded text.now ≡ Ok again)) }
    ensures same { IfOk result (λ found. IfSome found (λ _. before_mac text.now ≡ before_mac first.now)) }
    ensures none { IfOk result (λ found. IsNone found → before_mac text.now ≡ before_mac first.now
        → is_request (Ok frame.now) ≡ false) }
{
    Cursor::new(first).are_bytes();
    match frame {
        Frame::Request {
            client,
            number,
            round,
            sets,
            body,
            ..
        } if before_mac(text) == before_mac(first) => Ok(Some(Frame::Request {
            client: *client,
            number: *number,
            round: *round,
            sets: sets.copy()?,
            body: body.copy(alloc)?,
            mac: own_mac(text),
        })),
        Frame::Request { .. } | Frame::Reply { .. } | Frame::Fetch { .. } | Frame::Fetched { .. } =>
            Ok(None),
    }
}

/// The last 32 bytes of a text.
fn own_mac(text: &[u8]) -> [u8; 32]
    requires { 32 ≤ length text.now }
    ensures { result ≡ own_mac text.now }
{
    let mut mac = [0; 32];
    mac.copy_from_slice(&text[text.len() - 32..]);
    mac
}
