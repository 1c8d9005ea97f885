ghost use Rattle.std.specs.Prelude.{◌<◌, length};
ghost use Rattle.qu_io.specs.Streams.{StreamView};
ghost use Rattle.qu_io.specs.Reads.{ReadsFrom};

use super::Failed;

/// Where bytes come from.
pub trait Source {
    // The bytes that are left, where they are told, and how many faults there were.
    ghost known: { Self → StreamView };

    /// Puts the next bytes at the front of a slice that is not empty, and gives their number.
    ///
    /// 0 means that no byte is left. A failed call takes nothing, and counts as a fault.
    fn read(&mut self, into: &mut [u8]) -> Result<usize, Failed>
        requires { 0 < length into.old }
        ensures reads { ReadsFrom (known self.old) (known self.new) result into.new };
}
