ghost use Rattle.std.specs.Prelude.{◌≡◌, IfOk};

use super::{Answer, Value};
use qu_base::{ClientId, Digest, List, NoMemory, ObjectId};
use qu_stamp::Stamp;
use std::alloc::Global;

/// What a version keeps of a client: its last update, by its number and the digest of its act, and what
/// that answered.
pub struct KeptRow {
    pub client: ClientId,
    pub number: u64,
    pub act: Digest,
    pub answer: Answer,
}

/// By hand, so that a value is let go in one step wherever that is.
impl Drop for KeptRow {
    fn drop(self) {
        let KeptRow {
            client: _,
            number: _,
            act: _,
            answer: _,
        } = self;
    }
}

impl KeptRow {
    /// An equal row.
    pub fn copy(&self, alloc: Global) -> Result<KeptRow, NoMemory>
        ensures { IfOk result (λ row. row ≡ self.now) }
    {
        Ok(KeptRow {
            client: self.client,
            number: self.number,
            act: self.act,
            answer: self.answer.copy(alloc)?,
        })
    }

    /// Equal rows.
    pub fn copy_all(alloc: Global, rows: &[KeptRow]) -> Result<List<KeptRow>, NoMemory>
        ensures { IfOk result (λ copies. copies ≡ rows.now) }
    {
        let mut copies = List::new(alloc);
        for row in rows {
            copies.push(row.copy(alloc)?)?;
        }
        Ok(copies)
    }
}

/// The last version that was made together with one of another object: that object, and this object's
/// stamp then.
#[derive(Clone, Copy, PartialEq, Eq)]
pub struct Link {
    pub object: ObjectId,
    pub stamp: Stamp,
}

/// An object as it is under one stamp: its value, what is kept of clients, by rising client, and its links,
/// by rising object.
pub struct ObjState {
    pub value: Value,
    pub kept: List<KeptRow>,
    pub links: List<Link>,
}

/// By hand, so that a value is let go in one step wherever that is.
impl Drop for ObjState {
    fn drop(self) {
        let ObjState {
            value: _,
            kept: _,
            links: _,
        } = self;
    }
}

impl ObjState {
    /// An equal state.
    pub fn copy(&self, alloc: Global) -> Result<ObjState, NoMemory>
        ensures { IfOk result (λ state. state ≡ self.now) }
    {
        Ok(ObjState {
            value: self.value.copy(alloc)?,
            kept: KeptRow::copy_all(alloc, self.kept.as_slice())?,
            links: self.links.copy(alloc)?,
        })
    }

    /// Equal states.
    pub fn copy_all(alloc: Global, states: &[ObjState]) -> Result<List<ObjState>, NoMemory>
        ensures { IfOk result (λ copies. copies ≡ states.now) }
    {
        let mut copies = List::new(alloc);
        for state in states {
            copies.push(state.copy(alloc)?)?;
        }
        Ok(copies)
    }
}
