ghost use Rattle.std.specs.Prelude.{◌≡◌, IfOk};
ghost use Rattle.qu_kept.specs.Performing.{values_of};
ghost use Rattle.qu_rows.specs.Rows.{base_versions, base_keys, missing_of, versions_under};

use super::Rows;
use qu_base::{List, NoMemory, ObjectId};
use qu_mends::Seen;
use qu_objects::{ObjState, Value};
use qu_stamp::Stamp;
use std::alloc::Global;

// The versions upon which an operation rests, in the order of its parts.
impl<'a> Rows<'a> {
    /// The versions upon which it rests, where the replica has them.
    #[tactic(auto, using(crate::proofs::Keeping::keeping))]
    pub fn base_versions(&self, seen: &[Seen]) -> Result<List<ObjState>, NoMemory>
        ensures { IfOk result (λ versions. versions ≡ base_versions self.now seen.now) }
    {
        let mut versions = List::new(self.alloc);
        for one in seen {
            if let Some(version) = self.version_seen(one) {
                versions.push(version.copy(self.alloc)?)?;
            }
        }
        Ok(versions)
    }

    /// Their values.
    #[tactic(auto, using(crate::proofs::Keeping::keeping))]
    pub(super) fn base_values(&self, seen: &[Seen]) -> Result<List<Value>, NoMemory>
        ensures { IfOk result (λ values. values ≡ values_of (base_versions self.now seen.now)) }
    {
        let mut values = List::new(self.alloc);
        for one in seen {
            if let Some(version) = self.version_seen(one) {
                values.push(version.value.copy(self.alloc)?)?;
            }
        }
        Ok(values)
    }

    /// Those of the versions under these stamps that the replica lacks.
    pub(super) fn missing(
        &self,
        keys: &[(ObjectId, Stamp)],
    ) -> Result<List<(ObjectId, Stamp)>, NoMemory>
        ensures { IfOk result (λ missing. missing ≡ missing_of self.now keys.now) }
    {
        let mut missing = List::new(self.alloc);
        for key in keys {
            if self.version(key.0, &key.1).is_none() {
                missing.push(*key)?;
            }
        }
        Ok(missing)
    }

    /// Those that it has.
    #[tactic(auto, using(crate::proofs::Keeping::keeping))]
    pub(super) fn versions_under(
        &self,
        keys: &[(ObjectId, Stamp)],
    ) -> Result<List<ObjState>, NoMemory>
        ensures { IfOk result (λ versions. versions ≡ versions_under self.now keys.now) }
    {
        let mut versions = List::new(self.alloc);
        for key in keys {
            if let Some(version) = self.version(key.0, &key.1) {
                versions.push(version.copy(self.alloc)?)?;
            }
        }
        Ok(versions)
    }
}

/// The objects, each with the stamp upon which an operation on it rests.
#[tactic(auto, using(crate::proofs::Keeping::keeping))]
pub(super) fn base_keys(alloc: Global, seen: &[Seen]) -> Result<List<(ObjectId, Stamp)>, NoMemory>
    ensures { IfOk result (λ keys. keys ≡ base_keys seen.now) }
{
    let mut keys = List::new(alloc);
    for one in seen {
        if let Some(base) = &one.method {
            keys.push((one.object, base.stamp))?;
        }
    }
    Ok(keys)
}
