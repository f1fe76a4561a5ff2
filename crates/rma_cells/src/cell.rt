//! What stands on bytes side by side.
ghost use Rattle.std.specs.Prelude.{◌≡◌, ◌≢◌, ℕ, [], ◌∷◌, ◌↔◌, ◌⊎◌, IfOk, OnOk, OnErr, IsTrue};
ghost use Rattle.std.specs.List.{Contains};
ghost use Rattle.std.specs.List.Sorted.{IsStrictlyIncreasing};

use rma_base::Memory;
use smallvec::SmallVec;
use std::alloc::Global;
use std::marker::Model;

/// Bytes side by side on which the same ids stand. Their first byte is the key of the map of cells.
#[derive(Debug, Drop)]
pub(crate) struct Cell {
    /// The first address after them.
    end: i64,
    /// The ids, ascending.
    ids: SmallVec<u32, 4>,
}

impl Model for Cell {
    ghost use Rattle.rma_cells.specs.Cell.{Cell as Seen};

    ghost Value = { Seen };

    ghost view = { λ cell. record { end = cell.end; ids = cell.ids.items } };

    ghost invariant = { λ _. Unit {0} };
}

impl Cell {
    /// A cell with one id.
    pub(crate) fn new(alloc: Global, id: u32, end: i64) -> Cell
        ensures { result ≡ record { end = end; ids = id ∷ [] } }
    {
        let mut ids = SmallVec::new(alloc);
        ids.push_reserved(id);
        Cell { end, ids }
    }

    /// The same ids up to the same end.
    pub(crate) fn copy(&self) -> Result<Cell, Memory>
        ensures { IfOk result (λ cell. cell ≡ self.now) }
    {
        let ids = SmallVec::from_slice(*self.ids.allocator(), self.ids.as_slice())?;
        Ok(Cell { end: self.end, ids })
    }

    /// The first address after the cell.
    pub(crate) fn end(&self) -> i64
        ensures { result ≡ self.now.end }
    {
        self.end
    }

    /// The ids, ascending.
    pub(crate) fn ids(&self) -> &[u32]
        ensures { result.now ≡ self.now.ids }
    {
        self.ids.as_slice()
    }

    /// Ends the cell elsewhere.
    pub(crate) fn end_at(&mut self, end: i64)
        ensures { self.new ≡ record self.old { end = end } }
    {
        self.end = end;
    }

    /// Adds an id.
    pub(crate) fn insert(&mut self, id: u32) -> Result<(), Memory>
        requires { IsStrictlyIncreasing self.old.ids }
        ensures end { self.new.end ≡ self.old.end }
        ensures ascending { IsStrictlyIncreasing self.new.ids }
        ensures ids { OnOk result ((other : ℕ) → Contains self.new.ids other ↔ (Contains self.old.ids other ⊎ (other ≡ id))) }
        ensures err { OnErr result (self.new ≡ self.old) }
    {
        if let Err(i) = self.ids.as_slice().binary_search(&id) {
            self.ids.insert(i, id)?;
        }
        Ok(())
    }

    /// Takes an id out, where it stands there.
    pub(crate) fn remove(&mut self, id: u32)
        requires { IsStrictlyIncreasing self.old.ids }
        ensures end { self.new.end ≡ self.old.end }
        ensures ascending { IsStrictlyIncreasing self.new.ids }
        ensures ids { (other : ℕ) → Contains self.new.ids other ↔ (Contains self.old.ids other × (other ≢ id)) }
    {
        if let Ok(i) = self.ids.as_slice().binary_search(&id) {
            self.ids.remove(i);
        }
    }

    /// Whether no id stands there.
    pub(crate) fn is_empty(&self) -> bool
        ensures { IsTrue result ↔ (self.now.ids ≡ []) }
    {
        self.ids.is_empty()
    }

    /// Whether the same ids stand on both.
    pub(crate) fn has_ids_of(&self, other: &Cell) -> bool
        ensures { IsTrue result ↔ (self.now.ids ≡ other.now.ids) }
    {
        self.ids.as_slice() == other.ids.as_slice()
    }
}
