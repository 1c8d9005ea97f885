//! The text of an answer.

use qu_base::{ClientId, ObjectId, ReplicaId};
use qu_objects::Value;
use qu_print::{Piece, put_value};
use std::alloc::{AllocError, Global};
use std::fmt::Display;

/// A text that grows piece by piece. Once memory is refused it takes nothing more, and says so where it is taken, so
/// that those who tell something need not ask behind each piece.
#[derive(Drop)]
pub struct Told {
    text: String,
    refused: bool,
}

impl Told {
    pub fn new(alloc: Global) -> Told {
        Told {
            text: String::new(alloc),
            refused: false,
        }
    }

    /// Writes a format: `write!` calls it.
    pub fn write_fmt<D: Display + Drop>(&mut self, format: D) {
        if !self.refused {
            self.refused = self.text.write_fmt(format).is_err();
        }
    }

    pub fn put(&mut self, words: &str) {
        if !self.refused {
            self.refused = self.text.push_str(words).is_err();
        }
    }

    /// Writes words and the number behind them.
    pub fn put_number(&mut self, words: &str, number: u64) {
        self.put(words);
        write!(self, "{number}");
    }

    pub fn put_object(&mut self, words: &str, object: ObjectId) {
        self.put_number(words, u64::from(object.0));
    }

    pub fn put_replica(&mut self, words: &str, replica: ReplicaId) {
        self.put(words);
        self.put_number("r", u64::from(replica.0));
    }

    pub fn put_client(&mut self, words: &str, client: ClientId) {
        self.put(words);
        self.put_number("c", u64::from(client.0));
    }

    /// Writes bytes in hexadecimal digits.
    pub fn put_hex(&mut self, bytes: &[u8]) {
        for byte in bytes {
            write!(self, "{byte:02x}");
        }
    }

    /// Writes what a report tells of a piece of its line.
    pub fn put_piece<P: Piece>(&mut self, piece: &P) {
        if !self.refused {
            self.refused = piece.put(&mut self.text).is_err();
        }
    }

    /// Writes the value of an object as a listing tells it.
    pub fn put_value(&mut self, value: &Value) {
        if !self.refused {
            self.refused = put_value(&mut self.text, value).is_err();
        }
    }

    /// Writes a text in bytes.
    pub fn put_bytes(&mut self, alloc: Global, text: &[u8]) {
        match String::from_utf8_lossy(alloc, text) {
            Ok(text) => self.put(text.as_str()),
            Err(AllocError) => self.refuse(),
        }
    }

    /// Takes nothing more: memory was refused to what was to be told.
    pub fn refuse(&mut self) {
        self.refused = true;
    }

    /// The whole text.
    pub fn text(self) -> Result<String, AllocError> {
        if self.refused {
            return Err(AllocError);
        }
        Ok(self.text)
    }
}
