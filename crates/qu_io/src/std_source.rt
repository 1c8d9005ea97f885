ghost use Rattle.std.specs.Prelude.{◌≡◌, ◌<◌};

use super::{Failed, Source};
use std::io::Read;

/// A reader of std, as a source.
///
/// The bytes that are left are the reader's own. Each of its errors is a fault, also
/// `Interrupted`: no call is made again. The count of faults stays at 2^64 - 1.
#[derive(Drop)]
pub struct StdSource<R> {
    reader: R,
    faults: u64,
}

impl<R> StdSource<R> {
    ghost use Rattle.qu_io.specs.FromStd.{reader_of, read_faults};

    pub fn new(reader: R) -> StdSource<R>
        ensures reader { reader_of result ≡ reader }
        ensures faults { read_faults result ≡ 0 }
    {
        StdSource { reader, faults: 0 }
    }

    /// How many reads failed, at most 2^64 - 1.
    pub fn faults(&self) -> u64
        ensures { result ≡ read_faults self.now }
    {
        self.faults
    }

    /// Gives the reader back.
    pub fn into_inner(self) -> R
        ensures { result ≡ reader_of self }
    {
        self.reader
    }
}

impl<R: Read> Source for StdSource<R> {
    ghost use Rattle.qu_io.specs.FromStd.{known_source};

    ghost known = { known_source R.remaining };

    fn read(&mut self, into: &mut [u8]) -> Result<usize, Failed> {
        match self.reader.read(into) {
            Ok(count) => Ok(count),
            Err(_) => {
                self.faults = self.faults.saturating_add(1);
                Err(Failed)
            }
        }
    }
}
