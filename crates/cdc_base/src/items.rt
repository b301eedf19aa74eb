//! The one list type: every list of the project is an alias of it.

ghost use Rattle.std.specs.Prelude.{◌≡◌, ◌==◌, [], ◌∷◌, ◌++◌, length, slice_get, OnOk, OnErr, IfNone, IfSome, ◌<◌, ◌≤◌, slice_index_or, insert, remove};
ghost use Rattle.std.specs.Option.{option_copied};

use crate::memory::Memory;
use std::alloc::Global;
use std::marker::Model;

/// A list that grows at its end, seen as the list of its items, counted from 0.
#[derive(Debug, Drop)]
pub struct Items<T> {
    items: Vec<T>,
}

impl<T> Model for Items<T> {
    ghost use Rattle.std.specs.Prelude.{List};

    ghost Value = { List T };

    ghost view = { λ list. list.items.items };
}

impl<T> Items<T> {
    /// The empty list, which takes no memory and keeps the allocator for its growth.
    pub fn new(alloc: Global) -> Items<T>
        ensures { result ≡ [] }
    {
        Items {
            items: Vec::new(alloc),
        }
    }

    /// How many items there are.
    pub fn len(&self) -> usize
        ensures { result ≡ length self.now }
    {
        self.items.len()
    }

    /// Whether there is no item.
    pub fn is_empty(&self) -> bool
        ensures { result ≡ (length self.now == 0) }
    {
        self.items.is_empty()
    }

    /// The item at an index; none exactly where the index isn't below the length.
    pub fn get(&self, index: usize) -> Option<&T>
        ensures { option_copied result ≡ slice_get self.now index }
    {
        self.items.get(index)
    }

    /// All items, in order.
    pub fn as_slice(&self) -> &[T]
        ensures { result.now ≡ self.now }
    {
        self.items.as_slice()
    }

    /// Takes the item at an index out, and closes the gap.
    pub fn remove(&mut self, index: usize) -> T
        requires { index < length self.old }
        ensures item { result ≡ slice_index_or self.old index result }
        ensures rest { self.new ≡ remove self.old index }
    {
        self.items.remove(index)
    }

    /// Takes the last item out; none exactly where there is none.
    pub fn pop(&mut self) -> Option<T>
        ensures some { IfSome result (λ item. self.old ≡ self.new ++ item ∷ []) }
        ensures none { IfNone result ((self.old ≡ []) × (self.new ≡ [])) }
    {
        self.items.pop()
    }
}

impl<T: Drop> Items<T> {
    /// Puts an item at the end. On `Memory` the list is unchanged, and the item is let go.
    pub fn push(&mut self, item: T) -> Result<(), Memory>
        ensures ok { OnOk result (self.new ≡ self.old ++ item ∷ []) }
        ensures err { OnErr result (self.new ≡ self.old) }
    {
        self.items.push(item)?;
        Ok(())
    }

    /// Puts an item before the one at an index, or at the end. On `Memory` the list is unchanged, and the
    /// item is let go.
    pub fn insert(&mut self, index: usize, item: T) -> Result<(), Memory>
        requires { index ≤ length self.old }
        ensures ok { OnOk result (self.new ≡ insert self.old index item) }
        ensures err { OnErr result (self.new ≡ self.old) }
    {
        self.items.insert(index, item)?;
        Ok(())
    }
}
