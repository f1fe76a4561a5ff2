//! Sets of bytes by their ids.
ghost use Rattle.std.specs.Prelude.{◌≡◌, ◌≢◌, ℕ, ℤ, ◌+◌, ◌≤◌, ◌↔◌, ◌⊎◌, [], length, take, OnOk, OnErr};
ghost use Rattle.std.specs.List.{Contains};
ghost use Rattle.std.specs.List.Sorted.{IsStrictlyIncreasing};
ghost use Rattle.std.specs.Ordering.{int_cmp};
ghost use Rattle.std.specs.BTreeMap.{IsOrdered};
ghost use Rattle.rma_bytes.specs.Runs.{end_of, HasByte, IsCanonical, IsInBounds};
ghost use Rattle.rma_cells.specs.Cells.{AreCells, StandsAt};
ghost use Rattle.rma_cells.specs.Looks.{looks};
ghost use Rattle.rma_cells.specs.inside.Table.{table, IsNormal, IsSound, StandAlike, Stands};

use crate::cell_map::CellMap;
use crate::edits::{add_run, remove_run};
use crate::look::look;
use crate::steps::Steps;
use rma_base::Memory;
use rma_bytes::{Run, Runs};
use std::alloc::Global;
use std::collections::BTreeMap;
use std::marker::Model;
use std::sync::ledger::Ledger;

/// Sets of bytes by their ids. Contracts see the list of all cells, each with its first byte, in their order.
#[derive(Drop)]
pub struct Cells {
    /// Where new cells come from.
    alloc: Global,
    /// The cells by their first bytes.
    map: CellMap,
}

impl Model for Cells {
    ghost use Rattle.std.specs.Prelude.{List, ℤ};
    ghost use Rattle.std.specs.Ordering.{int_cmp};
    ghost use Rattle.std.specs.BTreeMap.{IsOrdered};
    ghost use Rattle.rma_cells.specs.Cell.{Cell};
    ghost use Rattle.rma_cells.specs.inside.Table.{table, IsNormal};

    ghost Value = { List (ℤ × Cell) };

    ghost view = { λ cells. cells.map.entries };

    ghost invariant = { λ cells. IsOrdered int_cmp cells.map × IsNormal (table cells.map) };
}

impl Cells {
    /// No id stands anywhere.
    pub fn new(alloc: Global) -> Cells
        ensures { result ≡ [] }
    {
        Cells {
            alloc,
            map: BTreeMap::new(alloc),
        }
    }

    /// Puts an id that stands nowhere on the bytes of a set.
    ///
    /// # Errors
    ///
    /// `Memory` where there is none left; the cells are as before.
    pub fn add(&mut self, id: u32, runs: &Runs) -> Result<(), Memory>
        requires { (b : ℤ) → StandsAt self.old id b → ⊥ }
        ensures stands { OnOk result ((other : ℕ) (b : ℤ) → StandsAt self.new other b ↔ (StandsAt self.old other b ⊎ ((other ≡ id) × HasByte runs.now b))) }
        ensures err { OnErr result (self.new ≡ self.old) }
    {
        add_runs(self.alloc, &mut self.map, id, runs)?;
        Ok(())
    }

    /// Takes an id off the bytes on which it stands. It takes no memory.
    pub fn remove(&mut self, id: u32, runs: &Runs)
        requires { (b : ℤ) → StandsAt self.old id b ↔ HasByte runs.now b }
        ensures { (other : ℕ) (b : ℤ) → StandsAt self.new other b ↔ (StandsAt self.old other b × (other ≢ id)) }
    {
        remove_first(&mut self.map, id, runs, runs.len());
    }

    /// Lists the ids that stand on a byte of a set, in ascending order. Each step is a look at one cell.
    ///
    /// # Errors
    ///
    /// `Memory` where there is none left for the list.
    pub fn meeting<L: Ledger>(
        &self,
        runs: &Runs,
        out: &mut Vec<u32>,
        steps: &mut Steps<L>,
    ) -> Result<(), Memory>
        ensures ascending { OnOk result (IsStrictlyIncreasing out.new.items) }
        ensures ids { OnOk result ((id : ℕ) → Contains out.new.items id ↔ ((b : ℤ) × StandsAt self.now id b × HasByte runs.now b)) }
        ensures steps { steps.new ≤ steps.old + looks self.now runs.now }
    {
        out.clear();
        look_at(&self.map, runs, out, steps)?;
        ascend(out);
        Ok(())
    }

    /// The number of cells.
    pub fn cells(&self) -> usize
        ensures number { result ≡ length self.now }
        ensures all { AreCells (StandsAt self.now) self.now }
    {
        self.map.len()
    }
}

/// The first address after a run.
fn end(run: Run) -> i64
    requires { IsInBounds run }
    ensures { result ≡ end_of run }
{
    run.start + run.len as i64
}

/// Puts an id that stands nowhere on the bytes of a set. Where memory runs out, all stays.
fn add_runs(alloc: Global, map: &mut CellMap, id: u32, runs: &Runs) -> Result<(), Memory>
    requires ordered { IsOrdered int_cmp map.old }
    requires normal { IsNormal (table map.old) }
    requires absent { (b : ℤ) → Stands (table map.old) id b → ⊥ }
    ensures ordered { IsOrdered int_cmp map.new }
    ensures normal { IsNormal (table map.new) }
    ensures stands { OnOk result ((other : ℕ) (b : ℤ) → Stands (table map.new) other b ↔ (Stands (table map.old) other b ⊎ ((other ≡ id) × HasByte runs.now b))) }
    ensures err { OnErr result (StandAlike (table map.old) (table map.new)) }
{
    'runs: for i in 0..runs.len() {
        let run = runs.get(i);
        if let Err(error) = add_run(alloc, map, id, run.start, end(run)) {
            remove_first(map, id, runs, i);
            return Err(error);
        }
    }
    Ok(())
}

/// Takes an id off the bytes of the first runs of a set, on which it stands and nowhere else.
fn remove_first(map: &mut CellMap, id: u32, runs: &Runs, count: usize)
    requires ordered { IsOrdered int_cmp map.old }
    requires normal { IsNormal (table map.old) }
    requires within { count ≤ length runs.now }
    requires there { (b : ℤ) → Stands (table map.old) id b ↔ HasByte (take count runs.now) b }
    ensures ordered { IsOrdered int_cmp map.new }
    ensures normal { IsNormal (table map.new) }
    ensures stands { (other : ℕ) (b : ℤ) → Stands (table map.new) other b ↔ (Stands (table map.old) other b × (other ≢ id)) }
{
    'runs: for i in 0..count {
        let run = runs.get(i);
        remove_run(map, id, run.start, end(run));
    }
}

/// Adds the ids that stand on the bytes of a set to a list, for each cell that has one.
fn look_at<L: Ledger>(
    map: &CellMap,
    runs: &Runs,
    out: &mut Vec<u32>,
    steps: &mut Steps<L>,
) -> Result<(), Memory>
    requires sound { IsSound (table map.now) }
    requires ordered { IsOrdered int_cmp map.now }
    ensures ids { OnOk result ((id : ℕ) → Contains out.new.items id ↔ (Contains out.old.items id ⊎ ((b : ℤ) × Stands (table map.now) id b × HasByte runs.now b))) }
    ensures steps { steps.new ≤ steps.old + looks map.now.entries runs.now }
{
    'runs: for i in 0..runs.len() {
        let run = runs.get(i);
        look(map, run.start, end(run), out, steps)?;
    }
    Ok(())
}

/// Puts a list in ascending order, with each number once.
fn ascend(out: &mut Vec<u32>)
    ensures ascending { IsStrictlyIncreasing out.new.items }
    ensures same { (id : ℕ) → Contains out.new.items id ↔ Contains out.old.items id }
{
    out.sort_unstable();
    out.dedup();
}
