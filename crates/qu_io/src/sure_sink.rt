ghost use Rattle.std.specs.Prelude.{◌≡◌, None, Ok, ◌+◌, ◌-◌, ◌^◌, min, length};
ghost use Rattle.qu_io.specs.Writes.{WritesTo};

use super::{Failed, Sink};
use std::marker::Model;

/// A sink that takes each piece whole, counts the bytes and keeps none of them.
///
/// It wants no memory, so its calls never fail: its count of faults is 0 whatever happens, and
/// where a contract says that the count rose, a call over this sink did not fail. For the same
/// reason it tells no bytes.
#[derive(Drop)]
pub struct SureSink {
    count: u64,
}

impl Model for SureSink {
    ghost use Rattle.std.specs.Prelude.{ℕ};

    ghost Value = { ℕ };

    ghost view = { λ sink. sink.count };
}

impl SureSink {
    pub fn new() -> SureSink
        ensures { result ≡ 0 }
    {
        SureSink { count: 0 }
    }

    /// How many bytes it took, at most 2^64 - 1.
    pub fn count(&self) -> u64
        ensures { result ≡ self.now }
    {
        self.count
    }
}

impl Sink for SureSink {
    ghost known = { λ _. record { bytes = None; faults = 0 } };

    /// Takes the whole piece.
    fn write(&mut self, piece: &[u8]) -> Result<usize, Failed>
        ensures writes { WritesTo (record { bytes = None; faults = 0 })
            (record { bytes = None; faults = 0 }) result piece.now }
        ensures sure { result ≡ Ok (length piece.now) }
        ensures counted { self.new ≡ min (self.old + length piece.now) (2 ^ 64 - 1) }
    {
        self.count = self.count.saturating_add(piece.len() as u64);
        Ok(piece.len())
    }
}
