//! A list of items, which contracts see as the list and nothing else.
ghost use Rattle.std.specs.Prelude.{◌≡◌, ◌<◌, ◌≤◌, ◌++◌, ◌∷◌, [], length, take, slice_get, slice_set, IsTrue, ◌↔◌, IfOk, OnOk, OnErr, IfErr, List as Listed};
ghost use Rattle.std.specs.Option.{option_copied};
ghost use Rattle.std.specs.Coded.{coded_list};

use crate::stop::NoMemory;
use std::alloc::{AllocError, Global};
use std::marker::Model;
use std::mem;

/// A list on the heap. Only the calls that add to it take memory.
#[derive(Debug, Drop)]
pub struct List<T> {
    items: Vec<T>,
}

/// Octets: what texts, names and messages are made of.
pub type Octets = List<u8>;

impl<T> Model for List<T> {
    ghost Value = { Listed T };

    ghost coded = { coded_list T.code };

    ghost view = { λ s. s.items.items };
}

impl<T> List<T> {
    /// An empty list. It takes no memory.
    pub fn new(alloc: Global) -> List<T>
        ensures { result ≡ [] }
    {
        List {
            items: Vec::new(alloc),
        }
    }

    /// Adds an item at the end. It fails only when it runs out of memory, and then hands the item back
    /// and leaves the list as it was.
    pub fn push(&mut self, item: T) -> Result<(), T>
        ensures pushed { OnOk result (self.new ≡ self.old ++ item ∷ []) }
        ensures handed_back { IfErr result (λ back. back ≡ item) }
        ensures unchanged { OnErr result (self.new ≡ self.old) }
    {
        match self.items.push(item) {
            Ok(()) => Ok(()),
            Err(failed) => Err(failed.value),
        }
    }

    /// Adds an item at the end, as `push` does, and lets it go where it runs out of memory.
    pub fn add(&mut self, item: T) -> Result<(), NoMemory>
    where
        T: Drop,
        ensures added { OnOk result (self.new ≡ self.old ++ item ∷ []) }
        ensures unchanged { OnErr result (self.new ≡ self.old) }
    {
        Ok(self.items.push(item)?)
    }

    /// How many items there are.
    pub fn len(&self) -> usize
        ensures { result ≡ length self.now }
    {
        self.items.len()
    }

    /// Whether there is no item.
    pub fn is_empty(&self) -> bool
        ensures { IsTrue result ↔ (self.now ≡ []) }
    {
        self.items.is_empty()
    }

    /// The item at an index; None exactly at an index not below the length.
    pub fn get(&self, at: usize) -> Option<&T>
        ensures { option_copied result ≡ slice_get self.now at }
    {
        self.items.get(at)
    }

    /// All the items, in order.
    pub fn as_slice(&self) -> &[T]
        ensures { result.now ≡ self.now }
    {
        self.items.as_slice()
    }

    /// Puts an item at an index below the length, and hands out the one that was there.
    pub fn set(&mut self, at: usize, item: T) -> T
        requires { at < length self.old }
        ensures old_item { slice_get self.old at ≡ Some result }
        ensures put { self.new ≡ slice_set self.old at item }
    {
        mem::replace(&mut self.items[at], item)
    }

    /// Keeps the first `len` items, at most as many as there are.
    pub fn truncate(&mut self, len: usize)
    where
        T: Drop,
        requires { len ≤ length self.old }
        ensures { self.new ≡ take len self.old }
    {
        self.items.truncate(len);
    }

    /// The list of a vector's items, which keeps the vector's memory.
    pub fn from_vec(items: Vec<T>) -> List<T>
        ensures { result ≡ items.items }
    {
        List { items }
    }

    /// The vector of the items, which keeps the list's memory.
    pub fn into_vec(self) -> Vec<T>
        ensures { result.items ≡ self }
    {
        self.items
    }
}

impl<T: Copy> List<T> {
    /// A list of the items of a slice, copied.
    pub fn from_slice(alloc: Global, items: &[T]) -> Result<List<T>, AllocError>
        ensures { IfOk result (λ list. list ≡ items.now) }
    {
        Ok(List {
            items: Vec::from_slice(alloc, items)?,
        })
    }

    /// Adds the items of a slice, copied, at the end. It fails only when it runs out of memory, and then
    /// leaves the list as it was.
    pub fn push_all(&mut self, items: &[T]) -> Result<(), AllocError>
        ensures pushed { OnOk result (self.new ≡ self.old ++ items.now) }
        ensures unchanged { OnErr result (self.new ≡ self.old) }
    {
        self.items.extend_from_slice(items)
    }
}
