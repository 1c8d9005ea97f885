ghost use Rattle.qu_io.specs.Streams.{StreamView};
ghost use Rattle.qu_io.specs.Writes.{WritesTo};

use super::Failed;

/// Where bytes go.
pub trait Sink {
    // The bytes that were taken, where they are told, and how many faults there were.
    ghost known: { Self → StreamView };

    /// Takes bytes off the front of a piece, and gives their number.
    ///
    /// Of a piece that is not empty it takes at least one byte. A failed call takes nothing, and
    /// counts as a fault.
    fn write(&mut self, piece: &[u8]) -> Result<usize, Failed>
        ensures writes { WritesTo (known self.old) (known self.new) result piece.now };
}
