ghost use Rattle.std.specs.Prelude.{◌≡◌, ◌≢◌, IfOk, Err};
ghost use Rattle.qu_io.specs.Streams.{Rose, IsCalm};
ghost use Rattle.qu_io.specs.Transfer.{TakesScript, TakesFew};

use super::limits::{PIECE, SCRIPT_LIMIT};
use crate::failed::Failed;
use crate::source::Source;
use qu_base::{List, NoMemory};
use std::alloc::{AllocError, Global};

/// Why a script could not be read.
#[derive(Clone, Copy, Debug, PartialEq, Eq)]
pub enum NoScript {
    /// A fault of the source ended a read.
    Fault,
    NoMemory,
}

impl From<Failed> for NoScript {
    ghost use Rattle.qu_io.specs.declared.reading.NoScript.TheVariants.{Fault};

    ghost from_gives = { λ _ e. e ≡ Fault };

    fn from(_error: Failed) -> NoScript {
        NoScript::Fault
    }
}

impl From<AllocError> for NoScript {
    ghost use Rattle.qu_io.specs.declared.reading.NoScript.TheVariants.{NoMemory};

    ghost from_gives = { λ _ e. e ≡ NoMemory };

    fn from(_error: AllocError) -> NoScript {
        NoScript::NoMemory
    }
}

/// Reads a source to its end, or to one byte past the most that a script may have.
pub fn take_script<S: Source>(alloc: Global, input: &mut S) -> Result<List<u8>, NoScript>
    ensures script { IfOk result (TakesScript (S.known input.old) (S.known input.new)) }
    ensures few { TakesFew (S.known input.old) (S.known input.new) }
    ensures fault { result ≡ Err NoScript.Fault → Rose (S.known input.old) (S.known input.new) }
    ensures calm { result ≢ Err NoScript.Fault → IsCalm (S.known input.old) (S.known input.new) }
{
    let mut piece = [0; PIECE];
    let mut script = Vec::new(alloc);
    'pieces: while script.len() <= SCRIPT_LIMIT {
        let room = PIECE.min(SCRIPT_LIMIT + 1 - script.len());
        let count = input.read(&mut piece[..room])?;
        if count == 0 {
            return Ok(List::from(script));
        }
        script.extend_from_slice(&piece[..count])?;
    }
    Ok(List::from(script))
}
