ghost use Rattle.std.specs.Prelude.{◌≡◌, ◌==◌, [], ◌∷◌, ◌++◌, ◌<◌, ◌↔◌, length, IsTrue, IfOk, OnOk, OnErr, slice_get};
ghost use Rattle.std.specs.Option.{option_copied};
ghost use Rattle.std.specs.Slice.Iter.{iter_rest};
ghost use Rattle.std.specs.Cmp.Lexicographic.{pointwise, lists_per, lists_equiv};

use super::NoMemory;
use std::alloc::{AllocError, Global};
use std::marker::Model;
use std::slice;

/// A vector that contracts see as the list of its items.
#[derive(Debug, Drop)]
pub struct List<T> {
    items: Vec<T>,
}

impl<T> Model for List<T> {
    ghost use Rattle.std.specs.Prelude.{List as Sequence};

    ghost Value = { Sequence T };

    ghost view = { λ list. list.items.items };
}

impl<T> List<T> {
    /// The empty list, which takes no memory until it grows.
    pub fn new(alloc: Global) -> List<T>
        ensures { result ≡ [] }
    {
        List {
            items: Vec::new(alloc),
        }
    }

    /// The empty list with room for so many items, which it takes at once.
    pub fn with_room(alloc: Global, room: usize) -> Result<List<T>, NoMemory>
        ensures { IfOk result (λ list. list ≡ []) }
    {
        Ok(List {
            items: Vec::with_capacity(alloc, room)?,
        })
    }

    pub fn len(&self) -> usize
        ensures { result ≡ length self.now }
    {
        self.items.len()
    }

    pub fn is_empty(&self) -> bool
        ensures { IsTrue result ↔ (self.now ≡ []) }
    {
        self.items.is_empty()
    }

    pub fn as_slice(&self) -> &[T]
        ensures { result.now ≡ self.now }
    {
        self.items.as_slice()
    }

    /// The item at a place, counted from 0.
    pub fn get(&self, index: usize) -> Option<&T>
        ensures { option_copied result ≡ slice_get self.now index }
    {
        self.items.as_slice().get(index)
    }

    /// The items as a vector, in which room can be reserved.
    pub fn into_vec(self) -> Vec<T>
        ensures { result.items ≡ self }
    {
        self.items
    }

    pub fn iter(&self) -> slice::Iter<'_, T>
        ensures { iter_rest result ≡ self.now }
    {
        self.items.as_slice().iter()
    }
}

impl<T: Drop> List<T> {
    /// The list of one item.
    pub fn one(alloc: Global, item: T) -> Result<List<T>, NoMemory>
        ensures { IfOk result (λ list. list ≡ item ∷ []) }
    {
        let mut list = List::new(alloc);
        list.push(item)?;
        Ok(list)
    }

    /// Puts an item at the end. Without memory the list stays as it is.
    pub fn push(&mut self, item: T) -> Result<(), NoMemory>
        ensures ok { OnOk result (self.new ≡ self.old ++ item ∷ []) }
        ensures err { OnErr result (self.new ≡ self.old) }
    {
        self.items.push(item)?;
        Ok(())
    }
}

impl<T: Clone> List<T> {
    /// An equal list.
    pub fn copy(&self, alloc: Global) -> Result<List<T>, NoMemory>
        requires { (item copied : T) → T.is_clone item copied → copied ≡ item }
        ensures { IfOk result (λ list. list ≡ self.now) }
    {
        List::from_clones(alloc, self.items.as_slice())
    }

    /// The list of these items.
    pub fn from_clones(alloc: Global, items: &[T]) -> Result<List<T>, NoMemory>
        requires { (item copied : T) → T.is_clone item copied → copied ≡ item }
        ensures { IfOk result (λ list. list ≡ items.now) }
    {
        let items = Vec::from_clones(alloc, items)?;
        Ok(List { items })
    }
}

impl<T> From<Vec<T>> for List<T> {
    ghost from_gives = { λ items list. list ≡ items.items };

    fn from(items: Vec<T>) -> List<T> {
        List { items }
    }
}

impl<T: Clone> Clone for List<T> {
    ghost is_clone = { λ list copied. ((item other : T) → T.is_clone item other → other ≡ item) → copied ≡ list };

    fn clone(&self) -> Result<List<T>, AllocError> {
        let items = self.items.clone()?;
        Ok(List { items })
    }
}

impl<T: PartialEq> PartialEq for List<T> {
    ghost eq = { λ list other. pointwise T.eq list other };

    ghost laws = { lists_per T.laws };

    fn eq(&self, other: &List<T>) -> bool {
        self.items == other.items
    }
}

impl<T: Eq> Eq for List<T> {
    ghost laws = { lists_equiv T.Eq.laws };
}

impl<'a, T> IntoIterator for &'a List<T> {
    type Item = &'a T;

    type IntoIter = slice::Iter<'a, T>;

    ghost into_iter_gives = { λ list iterator. iter_rest iterator ≡ list.now };

    fn into_iter(self) -> Self::IntoIter {
        self.iter()
    }
}
