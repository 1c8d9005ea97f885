ghost use Rattle.std.specs.Prelude.{◌≡◌, ◌<◌, ◌↔◌, ◌∷◌, [], length, IsNone, IfNone, IfSome, OnErr};
ghost use Rattle.std.specs.Int.{w8, w16, w64, to_be_bytes};
ghost use Rattle.qu_base.specs.Cursor.{Takes};
ghost use Rattle.qu_base.specs.Format.{number, bytes, flag, digest_form, object_form, replica_form, client_form, AreBytes};
ghost use Rattle.qu_base.specs.Reading.{Reads};

use super::{
    BadText, ClientId, Digest, LAST_CLIENT, OBJECT_IDS, ObjectId, REPLICA_IDS, ReplicaId, Why,
};
use std::marker::Model;

/// A place in a text that is being read. A number is big-endian.
///
/// Each read gives `None` exactly where too few bytes remain, or the refusal of its field, and then the
/// place stays.
#[derive(Drop)]
pub struct Cursor<'a> {
    place: usize,
    rest: &'a [u8],
}

impl<'a> Model for Cursor<'a> {
    ghost use Rattle.std.specs.Prelude.{◌+◌, ◌^◌, ◌<◌, length};
    ghost use Rattle.qu_base.specs.Cursor.{Front};

    ghost Value = { Front };

    ghost view = { λ cursor. record { place = cursor.place; rest = cursor.rest.now } };

    ghost invariant = { λ cursor. cursor.place + length cursor.rest.now < 2 ^ 64 };
}

impl<'a> Cursor<'a> {
    /// The start of a text.
    pub fn new(text: &'a [u8]) -> Cursor<'a>
        ensures start { result.place ≡ 0 }
        ensures rest { result.rest ≡ text.now }
    {
        Cursor {
            place: 0,
            rest: text,
        }
    }

    /// How many bytes of the text were read.
    pub fn place(&self) -> usize
        ensures { result ≡ self.now.place }
    {
        self.place
    }

    /// The next `count` bytes.
    pub fn take(&mut self, count: usize) -> Option<&'a [u8]>
        ensures short { IsNone result ↔ (length self.old.rest < count) }
        ensures kept { IfNone result (self.new ≡ self.old) }
        ensures taken { IfSome result (λ piece. Takes self.old self.new piece.now) }
        ensures count { IfSome result (λ piece. length piece.now ≡ count) }
    {
        if self.rest.len() < count {
            return None;
        }
        let (piece, rest) = self.rest.split_at(count);
        self.rest = rest;
        self.place += count;
        Some(piece)
    }

    /// The next byte.
    pub fn u8(&mut self) -> Option<u8>
        ensures short { IsNone result ↔ (length self.old.rest < 1) }
        ensures kept { IfNone result (self.new ≡ self.old) }
        ensures taken { IfSome result (λ value. Takes self.old self.new (value ∷ [])) }
    {
        let piece = self.take(1)?;
        Some(piece[0])
    }

    /// The next number of two bytes.
    pub fn u16(&mut self) -> Option<u16>
        ensures short { IsNone result ↔ (length self.old.rest < 2) }
        ensures kept { IfNone result (self.new ≡ self.old) }
        ensures taken { IfSome result (λ value. Takes self.old self.new (to_be_bytes w16 value)) }
    {
        let piece = self.take(2)?;
        Some(u16::from_be_bytes([piece[0], piece[1]]))
    }

    /// The next number of eight bytes.
    #[tactic(auto, using(std::proofs::lemmas::Nat::be_bytes_8))]
    pub fn u64(&mut self) -> Option<u64>
        ensures short { IsNone result ↔ (length self.old.rest < 8) }
        ensures kept { IfNone result (self.new ≡ self.old) }
        ensures taken { IfSome result (λ value. Takes self.old self.new (to_be_bytes w64 value)) }
    {
        let piece = self.take(8)?;
        Some(u64::from_be_bytes([
            piece[0], piece[1], piece[2], piece[3], piece[4], piece[5], piece[6], piece[7],
        ]))
    }

    /// What is left are bytes.
    pub fn are_bytes(&self)
        ensures { AreBytes self.now.rest }
    {
        hold_bytes(self.rest);
    }

    /// A refusal of the field that begins here.
    pub fn refusal(&self, why: Why) -> BadText
        ensures { result ≡ record { place = self.now.place; why = why } }
    {
        BadText {
            place: self.place as u64,
            why,
        }
    }

    /// A cursor at this place, by which to read ahead.
    pub fn ahead(&self) -> Cursor<'a>
        ensures { result ≡ self.now }
    {
        Cursor {
            place: self.place,
            rest: self.rest,
        }
    }

    /// The next byte, from `least` to `most`.
    #[tactic(auto, unfolding(crate::specs::Format::number_at))]
    pub fn u8_within(&mut self, least: u8, most: u8) -> Result<u8, BadText>
        ensures read { Reads (number w8 least most) result self.old self.new }
        ensures kept { OnErr result (self.new ≡ self.old) }
    {
        let mut ahead = self.ahead();
        let Some(value) = ahead.u8() else {
            return Err(self.refusal(Why::Short));
        };
        if value < least || value > most {
            return Err(self.refusal(Why::Range));
        }
        *self = ahead;
        Ok(value)
    }

    /// The next number of two bytes, from `least` to `most`.
    #[tactic(auto, unfolding(crate::specs::Format::number_at))]
    pub fn u16_within(&mut self, least: u16, most: u16) -> Result<u16, BadText>
        ensures read { Reads (number w16 least most) result self.old self.new }
        ensures kept { OnErr result (self.new ≡ self.old) }
    {
        let mut ahead = self.ahead();
        let Some(value) = ahead.u16() else {
            return Err(self.refusal(Why::Short));
        };
        if value < least || value > most {
            return Err(self.refusal(Why::Range));
        }
        *self = ahead;
        Ok(value)
    }

    /// The next number of eight bytes, from `least` to `most`.
    #[tactic(auto, unfolding(crate::specs::Format::number_at))]
    pub fn u64_within(&mut self, least: u64, most: u64) -> Result<u64, BadText>
        ensures read { Reads (number w64 least most) result self.old self.new }
        ensures kept { OnErr result (self.new ≡ self.old) }
    {
        let mut ahead = self.ahead();
        let Some(value) = ahead.u64() else {
            return Err(self.refusal(Why::Short));
        };
        if value < least || value > most {
            return Err(self.refusal(Why::Range));
        }
        *self = ahead;
        Ok(value)
    }

    /// The next byte, 0 or 1, as a flag; 1 only where it may be.
    pub fn flag(&mut self, may: bool) -> Result<bool, BadText>
        ensures read { Reads (flag may) result self.old self.new }
        ensures kept { OnErr result (self.new ≡ self.old) }
    {
        let code = self.u8_within(0, u8::from(may))?;
        Ok(code == 1)
    }

    /// The next object, by its number.
    pub fn object(&mut self) -> Result<ObjectId, BadText>
        ensures read { Reads object_form result self.old self.new }
        ensures kept { OnErr result (self.new ≡ self.old) }
    {
        Ok(ObjectId(self.u16_within(0, OBJECT_IDS - 1)?))
    }

    /// The next replica, by its number.
    pub fn replica(&mut self) -> Result<ReplicaId, BadText>
        ensures read { Reads replica_form result self.old self.new }
        ensures kept { OnErr result (self.new ≡ self.old) }
    {
        Ok(ReplicaId(self.u8_within(0, REPLICA_IDS - 1)?))
    }

    /// The next client, by its number.
    pub fn client(&mut self) -> Result<ClientId, BadText>
        ensures read { Reads client_form result self.old self.new }
        ensures kept { OnErr result (self.new ≡ self.old) }
    {
        Ok(ClientId(self.u16_within(1, LAST_CLIENT)?))
    }

    /// The next 32 bytes.
    #[tactic(auto, using(crate::proofs::Formats::bytes_read, crate::proofs::Formats::bytes_short))]
    pub fn array(&mut self) -> Result<[u8; 32], BadText>
        ensures read { Reads (bytes 32) result self.old self.new }
        ensures kept { OnErr result (self.new ≡ self.old) }
    {
        let Some(piece) = self.take(32) else {
            return Err(self.refusal(Why::Short));
        };
        let mut content = [0; 32];
        content.copy_from_slice(piece);
        Ok(content)
    }

    /// The next 32 bytes, as a digest.
    pub fn digest(&mut self) -> Result<Digest, BadText>
        ensures read { Reads digest_form result self.old self.new }
        ensures kept { OnErr result (self.new ≡ self.old) }
    {
        Ok(Digest(self.array()?))
    }
}

/// What a slice of bytes holds are bytes.
fn hold_bytes(text: &[u8])
    ensures { AreBytes text.now }
{}
