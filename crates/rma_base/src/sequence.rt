//! Short lists of plain data, as constructors and calls have them.
ghost use Rattle.std.specs.Prelude.{◌≡◌, ◌==◌, ◌<◌, ◌++◌, [], ◌∷◌, length, OnOk, OnErr, IfOk, slice_index_or, slice_set};
ghost use Rattle.std.specs.List.{swap_remove};

use crate::memory::Memory;
use std::alloc::Global;
use std::marker::Model;

/// A list that grows at its end.
#[derive(Debug, Drop)]
pub struct Sequence<T> {
    items: Vec<T>,
}

impl<T> Model for Sequence<T> {
    ghost use Rattle.std.specs.Prelude.{List};

    ghost Value = { List T };

    ghost view = { λ list. list.items.items };
}

impl<T> Sequence<T> {
    ghost use Rattle.std.specs.Borrow.{Lends, sem};
    ghost use Rattle.rma_base.specs.contracts.sequence.Sequence.{the_row};

    /// The empty list.
    pub fn new(alloc: Global) -> Self
        ensures { result ≡ [] }
    {
        Sequence {
            items: Vec::new(alloc),
        }
    }

    /// The empty list, with room for so many items.
    ///
    /// # Errors
    ///
    /// `Memory` where there is none left.
    pub fn with_capacity(alloc: Global, items: usize) -> Result<Self, Memory>
        ensures { IfOk result (λ list. list ≡ []) }
    {
        match Vec::with_capacity(alloc, items) {
            Ok(items) => Ok(Sequence { items }),
            Err(_) => Err(Memory),
        }
    }

    /// The number of items.
    pub fn len(&self) -> usize
        ensures { result ≡ length self.now }
    {
        self.items.len()
    }

    /// Whether there is no item.
    pub fn is_empty(&self) -> bool
        ensures { result ≡ (length self.now == 0) }
    {
        self.items.is_empty()
    }

    /// The items in order.
    pub fn as_slice(&self) -> &[T]
        ensures { result.now ≡ self.now }
    {
        self.items.as_slice()
    }

    /// The item at the index.
    pub fn get(&self, i: usize) -> &T
        requires { i < length self.now }
        ensures { result.now ≡ slice_index_or self.now i result.now }
    {
        &self.items[i]
    }

    /// The item at the index, for writing.
    pub fn get_mut(&mut self, i: usize) -> &mut T
        requires { i < length self.old }

        // What is written there stands at that index afterwards.
        ensures* writes_back { sem 𝓛 (Lends (the_row T.row) T.row self.entry result (slice_set self.old i)) }
        ensures value { result.now ≡ slice_index_or self.old i result.now }
    {
        &mut self.items[i]
    }

    /// Where the list takes its memory.
    pub fn allocator(&self) -> Global {
        *self.items.allocator()
    }

    /// Appends the item.
    pub fn push(&mut self, item: T) -> Result<(), Memory>
    where
        T: Drop,
        ensures ok { OnOk result (self.new ≡ self.old ++ item ∷ []) }
        ensures err { OnErr result (self.new ≡ self.old) }
    {
        match self.items.push(item) {
            Ok(()) => Ok(()),
            Err(_) => Err(Memory),
        }
    }

    /// Takes the item at the index out, and puts the last one in its place.
    pub fn swap_remove(&mut self, i: usize) -> T
        requires { i < length self.old }
        ensures value { result ≡ slice_index_or self.old i result }
        ensures rest { self.new ≡ swap_remove self.old i result }
    {
        self.items.swap_remove(i)
    }

    /// Drops all items.
    pub fn clear(&mut self)
    where
        T: Drop,
        ensures { self.new ≡ [] }
    {
        self.items.clear();
    }
}

impl<T: Copy> Sequence<T> {
    /// A list of the same items.
    pub fn copy(&self) -> Result<Sequence<T>, Memory>
        ensures { IfOk result (λ list. list ≡ self.now) }
    {
        match Vec::from_slice(self.allocator(), self.items.as_slice()) {
            Ok(items) => Ok(Sequence { items }),
            Err(_) => Err(Memory),
        }
    }
}
