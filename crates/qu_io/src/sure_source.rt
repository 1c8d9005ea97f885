ghost use Rattle.std.specs.Prelude.{◌≡◌, Some, Ok, IfOk, ◌++◌, ◌<◌, min, length, take, drop};
ghost use Rattle.qu_io.specs.Reads.{ReadsFrom};

use super::{Failed, Source};
use qu_base::List;
use std::marker::Model;

/// Bytes in memory, read by calls that never fail.
///
/// It tells its bytes, and its count of faults is 0 whatever happens: where a contract says that
/// the count rose, a call over this source did not fail.
#[derive(Drop)]
pub struct SureSource {
    bytes: List<u8>,
    place: usize,
}

impl Model for SureSource {
    ghost use Rattle.std.specs.Prelude.{List, ℕ, ◌≤◌, length, drop};

    ghost Value = { List ℕ };

    ghost view = { λ source. drop source.place source.bytes };

    ghost invariant = { λ source. source.place ≤ length source.bytes };
}

impl SureSource {
    pub fn new(bytes: List<u8>) -> SureSource
        ensures { result ≡ bytes }
    {
        SureSource { bytes, place: 0 }
    }

    /// The bytes that are left.
    pub fn left(&self) -> &[u8]
        ensures { result.now ≡ self.now }
    {
        &self.bytes.as_slice()[self.place..]
    }

    /// Moves bytes from the front of what is left to the front of a slice, as many as it has room
    /// for, and gives their number.
    pub(crate) fn give(&mut self, into: &mut [u8]) -> usize
        ensures count { result ≡ min (length self.old) (length into.old) }
        ensures rest { self.new ≡ drop result self.old }
        ensures given { into.new ≡ take result self.old ++ drop result into.old }
    {
        let left = &self.bytes.as_slice()[self.place..];
        let count = left.len().min(into.len());
        into[..count].copy_from_slice(&left[..count]);
        self.place += count;
        count
    }
}

impl Source for SureSource {
    ghost known = { λ left. record { bytes = Some left; faults = 0 } };

    /// Fills the slice as far as the bytes go.
    #[tactic(auto, using(crate::proofs::Moves::reads_front))]
    fn read(&mut self, into: &mut [u8]) -> Result<usize, Failed>
        requires { 0 < length into.old }
        ensures reads { ReadsFrom (record { bytes = Some self.old; faults = 0 })
            (record { bytes = Some self.new; faults = 0 }) result into.new }
        ensures sure { result ≡ Ok (min (length self.old) (length into.old)) }
        ensures rest { IfOk result (λ count. self.new ≡ drop count self.old) }
        ensures given { IfOk result (λ count.
            into.new ≡ take count self.old ++ drop count into.old) }
    {
        Ok(self.give(into))
    }
}
