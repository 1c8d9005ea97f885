//! What the parts of an operation may be.
ghost use Rattle.std.specs.Prelude.{◌≡◌, map};
ghost use Rattle.qu_objects.specs.Parts.{is_object_from, are_objects_from, are_parts};

use super::MOST_PARTS;
use qu_base::{OBJECT_IDS, ObjectId};

/// Whether an operation may have these parts: one or more, at most `MOST_PARTS`, on objects that rise.
pub(crate) fn are_parts<X>(parts: &[(ObjectId, X)]) -> bool
    ensures { result ≡ are_parts parts.now }
{
    1 <= parts.len() && parts.len() <= usize::from(MOST_PARTS) && objects_rise(parts)
}

/// Whether the objects of these parts have numbers, and rise.
#[tactic(auto, unfolding(crate::specs::Parts::are_objects_from))]
fn objects_rise<X>(parts: &[(ObjectId, X)]) -> bool
    ensures { result ≡ are_objects_from 0 (map (λ part. part.0) parts.now) }
{
    let mut least = 0;
    for (object, _) in parts {
        if !is_object_from(least, *object) {
            return false;
        }
        least = object.0 + 1;
    }
    true
}

/// Whether this is an object from this number on.
fn is_object_from(least: u16, object: ObjectId) -> bool
    ensures { result ≡ is_object_from least object }
{
    least <= object.0 && object.0 < OBJECT_IDS
}
