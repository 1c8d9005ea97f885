ghost use Rattle.std.specs.Prelude.{◌≡◌, ◌<◌, ◌↔◌, IsOk, IfOk, IsTrue};
ghost use Rattle.qu_objects.specs.Parts.{are_parts, is_sized_method, are_sized};

use super::parts::are_parts;
use qu_base::{CONTENT_LIMIT, List, NAME_LIMIT, NoMemory, ObjectId};
use std::alloc::Global;
use std::marker::Model;

/// An update of one object.
#[derive(Clone, PartialEq, Eq)]
pub enum Method {
    /// Adds to a counter.
    Add(u64),
    /// Takes from a counter.
    Take(u64),
    /// Puts bytes, at most `CONTENT_LIMIT`, in the place of those of a blob.
    Put(List<u8>),
    /// Adds bytes, at most `CONTENT_LIMIT`, at the end of a blob.
    Append(List<u8>),
    /// Links a name, of at most `NAME_LIMIT` bytes, to a number in a directory.
    Link(List<u8>, u64),
    /// Takes a name, of at most `NAME_LIMIT` bytes, out of a directory.
    Unlink(List<u8>),
}

/// By hand, so that a value is let go in one step wherever that is.
impl Drop for Method {
    fn drop(self) {
        match self {
            Method::Add(_)
            | Method::Take(_)
            | Method::Put(_)
            | Method::Append(_)
            | Method::Link(_, _)
            | Method::Unlink(_) => {}
        }
    }
}

impl Method {
    /// Whether what it carries is no longer than it may be.
    pub fn is_sized(&self) -> bool
        ensures { result ≡ is_sized_method self.now }
    {
        match self {
            Method::Add(_) | Method::Take(_) => true,
            Method::Put(content) | Method::Append(content) => {
                content.len() <= usize::from(CONTENT_LIMIT)
            }
            Method::Link(name, _) | Method::Unlink(name) => name.len() <= usize::from(NAME_LIMIT),
        }
    }
}

/// The parts of an operation are not in the right number or order, or one carries more than it may.
#[derive(Clone, Copy, Debug, PartialEq, Eq)]
pub struct BadParts;

/// An update of objects: for each of them, in rising order, what is done to it.
pub struct Act {
    parts: List<(ObjectId, Method)>,
}

/// By hand, so that a value is let go in one step wherever that is.
impl Drop for Act {
    fn drop(self) {
        let Act { parts: _ } = self;
    }
}

impl Model for Act {
    ghost use Rattle.std.specs.Prelude.{List, IsTrue};
    ghost use Rattle.qu_base.specs.declared.party.ObjectId.{ObjectId};
    ghost use Rattle.qu_objects.specs.declared.act.Method.{Method};
    ghost use Rattle.qu_objects.specs.Parts.{are_parts, is_sized_method, are_sized};

    ghost Value = { List (ObjectId × Method) };

    ghost view = { λ act. act.parts };

    ghost invariant = { λ act. IsTrue (are_parts act.parts) × IsTrue (are_sized is_sized_method act.parts) };
}

impl Act {
    /// Refuses exactly where there is no part or there are more than `MOST_PARTS`, where the objects do not rise or
    /// one is not below `OBJECT_IDS`, or where a part carries more than it may.
    pub fn new(parts: List<(ObjectId, Method)>) -> Result<Act, BadParts>
        ensures accepted { IsOk result ↔ (IsTrue (are_parts parts) × IsTrue (are_sized is_sized_method parts)) }
        ensures value { IfOk result (λ act. act ≡ parts) }
    {
        if !are_parts(parts.as_slice()) || !are_sized(parts.as_slice()) {
            return Err(BadParts);
        }
        Ok(Act { parts })
    }

    /// The objects in rising order, each with what is done to it.
    pub fn parts(&self) -> &List<(ObjectId, Method)>
        ensures parts { result.now ≡ self.now }
        ensures in_order { IsTrue (are_parts result.now) }
        ensures sized { IsTrue (are_sized is_sized_method result.now) }
    {
        &self.parts
    }

    /// An equal act.
    pub fn copy(&self, alloc: Global) -> Result<Act, NoMemory>
        ensures { IfOk result (λ act. act ≡ self.now) }
    {
        let parts = self.parts.copy(alloc)?;
        Ok(Act { parts })
    }
}

/// Whether no part carries more than it may.
fn are_sized(parts: &[(ObjectId, Method)]) -> bool
    ensures { result ≡ are_sized is_sized_method parts.now }
{
    parts.iter().all(|(_, method)| method.is_sized())
}
