ghost use Rattle.std.specs.Prelude.{◌≡◌, [], ◌++◌, length, take, IfOk, OnOk, OnErr};
ghost use Rattle.std.specs.Int.{w8, w16, w64, to_be_bytes, from_bool};

use super::{List, NoMemory};
use std::alloc::Global;
use std::marker::Model;

/// A text that is being written.
#[derive(Drop)]
pub struct Outbytes {
    bytes: Vec<u8>,
}

impl Model for Outbytes {
    ghost use Rattle.std.specs.Prelude.{List, ℕ};

    ghost Value = { List ℕ };

    ghost view = { λ out. out.bytes.items };
}

impl Outbytes {
    /// The empty text, which takes no memory until it grows.
    pub fn new(alloc: Global) -> Outbytes
        ensures { result ≡ [] }
    {
        Outbytes {
            bytes: Vec::new(alloc),
        }
    }

    /// The empty text with room for so many bytes, which it takes at once.
    pub fn with_room(alloc: Global, room: usize) -> Result<Outbytes, NoMemory>
        ensures { IfOk result (λ out. out ≡ []) }
    {
        Ok(Outbytes {
            bytes: Vec::with_capacity(alloc, room)?,
        })
    }

    /// Appends a piece. Without memory the text stays as it is.
    pub fn put(&mut self, piece: &[u8]) -> Result<(), NoMemory>
        ensures ok { OnOk result (self.new ≡ self.old ++ piece.now) }
        ensures err { OnErr result (self.new ≡ self.old) }
    {
        self.bytes.extend_from_slice(piece)?;
        Ok(())
    }

    /// Appends a byte. Without memory the text stays as it is.
    pub fn u8(&mut self, value: u8) -> Result<(), NoMemory>
        ensures ok { OnOk result (self.new ≡ self.old ++ to_be_bytes w8 value) }
        ensures err { OnErr result (self.new ≡ self.old) }
    {
        self.put(&value.to_be_bytes())
    }

    /// Appends a flag as a byte, 0 or 1. Without memory the text stays as it is.
    pub fn flag(&mut self, value: bool) -> Result<(), NoMemory>
        ensures ok { OnOk result (self.new ≡ self.old ++ to_be_bytes w8 (from_bool value)) }
        ensures err { OnErr result (self.new ≡ self.old) }
    {
        self.u8(u8::from(value))
    }

    /// Appends a number of two bytes. Without memory the text stays as it is.
    pub fn u16(&mut self, value: u16) -> Result<(), NoMemory>
        ensures ok { OnOk result (self.new ≡ self.old ++ to_be_bytes w16 value) }
        ensures err { OnErr result (self.new ≡ self.old) }
    {
        self.put(&value.to_be_bytes())
    }

    /// Appends a number of eight bytes. Without memory the text stays as it is.
    pub fn u64(&mut self, value: u64) -> Result<(), NoMemory>
        ensures ok { OnOk result (self.new ≡ self.old ++ to_be_bytes w64 value) }
        ensures err { OnErr result (self.new ≡ self.old) }
    {
        self.put(&value.to_be_bytes())
    }

    /// Appends a count as its lowest byte. Without memory the text stays as it is.
    pub fn count(&mut self, count: usize) -> Result<(), NoMemory>
        ensures ok { OnOk result (self.new ≡ self.old ++ to_be_bytes w8 count) }
        ensures err { OnErr result (self.new ≡ self.old) }
    {
        self.u8((count % 256) as u8)
    }

    /// Appends a length as its two lowest bytes. Without memory the text stays as it is.
    pub fn length(&mut self, length: usize) -> Result<(), NoMemory>
        ensures ok { OnOk result (self.new ≡ self.old ++ to_be_bytes w16 length) }
        ensures err { OnErr result (self.new ≡ self.old) }
    {
        self.u16((length % 65536) as u16)
    }

    /// How many bytes were written.
    pub fn len(&self) -> usize
        ensures { result ≡ length self.now }
    {
        self.bytes.len()
    }

    /// Goes back to the first bytes of the text.
    pub fn rewind(&mut self, length: usize)
        ensures { self.new ≡ take length self.old }
    {
        self.bytes.truncate(length);
    }

    /// The text as it was written.
    pub fn done(self) -> List<u8>
        ensures { result ≡ self }
    {
        List::from(self.bytes)
    }
}
