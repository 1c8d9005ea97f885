//! Histories that a replica sealed, by which it seals equal ones again without their digests and HMACs.
ghost use Rattle.std.specs.Prelude.{◌≡◌, IsTrue, IfOk, IfSome};
ghost use Rattle.qu_seal.specs.Keys.{authenticator_of};
ghost use Rattle.qu_history.specs.Culling.{history_digest};
ghost use Rattle.qu_history.specs.Sealing.{sealed_by};

use qu_base::{List, NoMemory};
use qu_history::{History, Sealed};
use qu_seal::{KeyRing, RingName};
use std::alloc::Global;
use std::marker::Model;

/// A history as its replica sealed it with the keys of a ring. Contracts see nothing of it: it saves work alone.
pub struct Seal {
    ring: RingName,
    sealed: Sealed,
}

/// By hand, so that a value is let go in one step wherever that is.
impl Drop for Seal {
    fn drop(self) {
        let Seal { ring: _, sealed: _ } = self;
    }
}

impl Model for Seal {
    ghost use Rattle.std.specs.Prelude.{◌≡◌, ⊤};
    ghost use Rattle.qu_history.specs.Sealing.{sealed_by};

    ghost Value = { ⊤ };

    ghost view = { λ _. tt };

    ghost invariant = { λ seal. seal.sealed ≡ sealed_by seal.ring seal.sealed.history };
}

impl Seal {
    /// A copy of a history that was sealed with the keys of this ring.
    pub(crate) fn of(alloc: Global, keys: &KeyRing, sealed: &Sealed) -> Result<Seal, NoMemory>
        requires { sealed.now ≡ sealed_by keys.now sealed.now.history }
    {
        Ok(Seal {
            ring: keys.name(),
            sealed: sealed.copy(alloc)?,
        })
    }

    /// The HMACs of this history with the keys of this ring, where it is the one that was sealed with them.
    pub(crate) fn macs_of(
        &self,
        alloc: Global,
        keys: &KeyRing,
        history: &History,
    ) -> Result<Option<List<[u8; 32]>>, NoMemory>
        ensures { IfOk result (λ found. IfSome found (λ macs. macs
            ≡ authenticator_of keys.now history.now.replica (history_digest history.now))) }
    {
        if self.ring == keys.name() && is_same(&self.sealed.history, history) {
            return Ok(Some(self.sealed.macs.copy(alloc)?));
        }
        Ok(None)
    }
}

/// Whether the two histories are one.
fn is_same(one: &History, other: &History) -> bool
    ensures { IsTrue result → one.now ≡ other.now }
{
    one.object() == other.object()
        && one.replica() == other.replica()
        && one.candidates().as_slice() == other.candidates().as_slice()
}

/// Places for so many seals.
pub(crate) fn no_seals(alloc: Global, count: usize) -> Result<Vec<Option<Seal>>, NoMemory> {
    let mut seals = Vec::new(alloc);
    for _ in 0..count {
        seals.push(None)?;
    }
    Ok(seals)
}

/// Keeps each of these in the place of the last one of its object. It takes no memory.
pub(crate) fn keep_seals(kept: &mut [Option<Seal>], seals: List<Seal>) {
    for seal in seals.into_vec() {
        let place = usize::from(seal.sealed.history.object().0);
        if place < kept.len() {
            kept[place] = Some(seal);
        }
    }
}
