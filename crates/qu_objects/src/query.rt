ghost use Rattle.std.specs.Prelude.{◌≡◌, ◌<◌, ◌↔◌, IsOk, IfOk, IsTrue};
ghost use Rattle.qu_objects.specs.Parts.{are_parts, is_sized_ask, are_sized};

use super::BadParts;
use super::parts::are_parts;
use qu_base::{List, NAME_LIMIT, NoMemory, ObjectId};
use std::alloc::Global;
use std::marker::Model;

/// What a query asks of one object.
#[derive(Clone, PartialEq, Eq)]
pub enum Ask {
    /// A counter's value.
    Read,
    /// A blob's bytes.
    Cat,
    /// The number of a name, of at most `NAME_LIMIT` bytes, in a directory.
    Find(List<u8>),
    /// All entries of a directory.
    All,
}

/// By hand, so that a value is let go in one step wherever that is.
impl Drop for Ask {
    fn drop(self) {
        match self {
            Ask::Read | Ask::Cat | Ask::Find(_) | Ask::All => {}
        }
    }
}

impl Ask {
    /// Whether what it carries is no longer than it may be.
    pub fn is_sized(&self) -> bool
        ensures { result ≡ is_sized_ask self.now }
    {
        match self {
            Ask::Read | Ask::Cat | Ask::All => true,
            Ask::Find(name) => name.len() <= usize::from(NAME_LIMIT),
        }
    }
}

/// A query of objects: for each of them, in rising order, what is asked of it.
pub struct Query {
    parts: List<(ObjectId, Ask)>,
}

/// By hand, so that a value is let go in one step wherever that is.
impl Drop for Query {
    fn drop(self) {
        let Query { parts: _ } = self;
    }
}

impl Model for Query {
    ghost use Rattle.std.specs.Prelude.{List, IsTrue};
    ghost use Rattle.qu_base.specs.declared.party.ObjectId.{ObjectId};
    ghost use Rattle.qu_objects.specs.declared.query.Ask.{Ask};
    ghost use Rattle.qu_objects.specs.Parts.{are_parts, is_sized_ask, are_sized};

    ghost Value = { List (ObjectId × Ask) };

    ghost view = { λ query. query.parts };

    ghost invariant = { λ query. IsTrue (are_parts query.parts) × IsTrue (are_sized is_sized_ask query.parts) };
}

impl Query {
    /// Refuses exactly where there is no part or there are more than `MOST_PARTS`, where the objects do not rise or
    /// one is not below `OBJECT_IDS`, or where a part carries more than it may.
    pub fn new(parts: List<(ObjectId, Ask)>) -> Result<Query, BadParts>
        ensures accepted { IsOk result ↔ (IsTrue (are_parts parts) × IsTrue (are_sized is_sized_ask parts)) }
        ensures value { IfOk result (λ query. query ≡ parts) }
    {
        if !are_parts(parts.as_slice()) || !are_sized(parts.as_slice()) {
            return Err(BadParts);
        }
        Ok(Query { parts })
    }

    /// The objects in rising order, each with what is asked of it.
    pub fn parts(&self) -> &List<(ObjectId, Ask)>
        ensures parts { result.now ≡ self.now }
        ensures in_order { IsTrue (are_parts result.now) }
        ensures sized { IsTrue (are_sized is_sized_ask result.now) }
    {
        &self.parts
    }

    /// An equal query.
    pub fn copy(&self, alloc: Global) -> Result<Query, NoMemory>
        ensures { IfOk result (λ query. query ≡ self.now) }
    {
        let parts = self.parts.copy(alloc)?;
        Ok(Query { parts })
    }
}

/// Whether no part carries more than it may.
fn are_sized(parts: &[(ObjectId, Ask)]) -> bool
    ensures { result ≡ are_sized is_sized_ask parts.now }
{
    parts.iter().all(|(_, ask)| ask.is_sized())
}
