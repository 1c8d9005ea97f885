ghost use Rattle.std.specs.Prelude.{◌≡◌};

use super::{Failed, Sink};
use std::io::Write;

/// A writer of std, as a sink.
///
/// The bytes that were taken are those that the writer holds. Each of its errors is a fault, also
/// `Interrupted`: no call is made again. So is a write that takes no byte of a piece that is not
/// empty. The count of faults stays at 2^64 - 1. The sink never flushes the writer.
#[derive(Drop)]
pub struct StdSink<W> {
    writer: W,
    faults: u64,
}

impl<W> StdSink<W> {
    ghost use Rattle.qu_io.specs.FromStd.{writer_of, write_faults};

    pub fn new(writer: W) -> StdSink<W>
        ensures writer { writer_of result ≡ writer }
        ensures faults { write_faults result ≡ 0 }
    {
        StdSink { writer, faults: 0 }
    }

    /// How many writes failed, at most 2^64 - 1.
    pub fn faults(&self) -> u64
        ensures { result ≡ write_faults self.now }
    {
        self.faults
    }

    /// Gives the writer back.
    pub fn into_inner(self) -> W
        ensures { result ≡ writer_of self }
    {
        self.writer
    }
}

impl<W: Write> Sink for StdSink<W> {
    ghost use Rattle.qu_io.specs.FromStd.{known_sink};

    ghost known = { known_sink W.contents };

    fn write(&mut self, piece: &[u8]) -> Result<usize, Failed> {
        match self.writer.write(piece) {
            Ok(count) if count > 0 || piece.is_empty() => Ok(count),
            _ => {
                self.faults = self.faults.saturating_add(1);
                Err(Failed)
            }
        }
    }
}
