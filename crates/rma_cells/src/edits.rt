//! Changes of the cells of some bytes.
ghost use Rattle.std.specs.Prelude.{◌≡◌, ◌≢◌, ℕ, ℤ, pos, ◌-ℤ◌, ◌≤ℤ◌, ◌<ℤ◌, ◌↔◌, ◌⊎◌, IfOk, IsSome, OnOk, OnErr, MatchResult};
ghost use Rattle.std.specs.Ordering.{int_cmp};
ghost use Rattle.std.specs.BTreeMap.{IsOrdered};
ghost use Rattle.rma_cells.specs.Cell.{Cell};
ghost use Rattle.rma_cells.specs.inside.Table.{table, Clears, ClearsRun, Cuts, Grows, CutsEnds, IsBetween, IsBoundary, IsCut, IsMaximal, IsNormal, IsSameTable, IsSound, Merges, StandAlike, Stands};

use crate::cell::Cell;
use crate::cell_map::{
    CellMap, alike_end, copy_at, end_at, first_within, gap_end, insert_id, last_before, put,
    remove_id, take,
};
use rma_base::Memory;
use std::alloc::Global;

/// Cuts the cell in two that has a byte and the one before it, if there is one.
fn cut(map: &mut CellMap, at: i64) -> Result<(), Memory>
    requires ordered { IsOrdered int_cmp map.old }
    requires sound { IsSound (table map.old) }
    ensures ordered { IsOrdered int_cmp map.new }
    ensures cuts { OnOk result (Cuts (table map.old) at (table map.new)) }
    ensures cut { OnOk result (IsCut (table map.new) at) }
    ensures err { OnErr result (IsSameTable (table map.old) (table map.new)) }
{
    let Some(extent) = last_before(map, at) else {
        return Ok(());
    };
    if extent.end <= at {
        return Ok(());
    }
    let upper = copy_at(map, extent.start)?;
    put(map, at, upper)?;
    end_at(map, extent.start, at);
    Ok(())
}

/// Makes one cell of the two that meet at a byte, if the same ids stand on them.
fn merge(map: &mut CellMap, at: i64)
    requires ordered { IsOrdered int_cmp map.old }
    requires sound { IsSound (table map.old) }
    ensures ordered { IsOrdered int_cmp map.new }
    ensures merges { Merges (table map.old) at (table map.new) }
{
    let Some(extent) = last_before(map, at) else {
        return;
    };
    if extent.end != at {
        return;
    }
    let Some(end) = alike_end(map, extent.start, at) else {
        return;
    };
    take(map, at);
    end_at(map, extent.start, end);
}

/// Cuts the cells at both ends of a run, or leaves them as they were.
fn cut_ends(map: &mut CellMap, start: i64, end: i64) -> Result<(), Memory>
    requires ordered { IsOrdered int_cmp map.old }
    requires normal { IsNormal (table map.old) }
    ensures ordered { IsOrdered int_cmp map.new }
    ensures same { StandAlike (table map.old) (table map.new) }
    ensures cuts { OnOk result (CutsEnds (table map.old) start end (table map.new)) }
    ensures err { OnErr result (IsNormal (table map.new)) }
{
    cut(map, start)?;
    match cut(map, end) {
        Ok(()) => Ok(()),
        Err(error) => {
            merge(map, start);
            Err(error)
        }
    }
}

/// Puts an id on the bytes of a gap from `at` on, or on those of the cell that begins there, and answers where these end.
fn fill_next(alloc: Global, map: &mut CellMap, id: u32, at: i64, before: i64) -> Result<i64, Memory>
    requires ordered { IsOrdered int_cmp map.old }
    requires sound { IsSound (table map.old) }
    requires some { at <ℤ before }
    requires cut { IsCut (table map.old) at }
    requires cut_before { IsCut (table map.old) before }
    ensures ordered { IsOrdered int_cmp map.new }
    ensures grows { IfOk result (λ next. Grows (table map.old) id at next before (table map.new) × (at <ℤ next) × IsBoundary (table map.new) next) }
    ensures err { OnErr result (IsSameTable (table map.old) (table map.new)) }
{
    let end = gap_end(map, at, before);
    if end == at {
        let next = insert_id(map, at, id)?;
        return Ok(next);
    }
    put(map, at, Cell::new(alloc, id, end))?;
    Ok(end)
}

/// Puts an id on the bytes of a run, or, where memory runs out, on some first bytes of it.
fn fill(alloc: Global, map: &mut CellMap, id: u32, start: i64, end: i64) -> Result<(), Memory>
    requires ordered { IsOrdered int_cmp map.old }
    requires sound { IsSound (table map.old) }
    requires some { start <ℤ end }
    requires cut { IsCut (table map.old) start }
    requires cut_end { IsCut (table map.old) end }
    ensures ordered { IsOrdered int_cmp map.new }
    ensures grows { MatchResult result (λ _. Grows (table map.old) id start end end (table map.new)) (λ _. (to : ℤ) × Grows (table map.old) id start to end (table map.new)) }
{
    let mut at = start;
    'cells: while at < end {
        at = fill_next(alloc, map, id, at, end)?;
    }
    Ok(())
}

/// Takes an id off the cell that begins at an address, with the cell where no other id stands there.
fn clear_cell(map: &mut CellMap, id: u32, start: i64)
    requires ordered { IsOrdered int_cmp map.old }
    requires sound { IsSound (table map.old) }
    requires some { IsSome (table map.old start) }
    ensures ordered { IsOrdered int_cmp map.new }
    ensures clears { (cell : Cell) → table map.old start ≡ Some cell → Clears (table map.old) id start cell.end (table map.new) }
{
    if remove_id(map, start, id) {
        take(map, start);
    }
}

/// Takes an id off the bytes of a run.
fn clear(map: &mut CellMap, id: u32, start: i64, end: i64)
    requires ordered { IsOrdered int_cmp map.old }
    requires sound { IsSound (table map.old) }
    requires up { start ≤ℤ end }
    requires cut { IsCut (table map.old) start }
    requires cut_end { IsCut (table map.old) end }
    ensures ordered { IsOrdered int_cmp map.new }
    ensures clears { Clears (table map.old) id start end (table map.new) }
{
    let mut at = start;
    'cells: while let Some(extent) = first_within(map, at, end) {
        clear_cell(map, id, extent.start);
        at = extent.end;
    }
}

/// Takes an id off the bytes of a run, and merges the cells at its ends where they are alike then.
fn clear_run(map: &mut CellMap, id: u32, start: i64, end: i64)
    requires ordered { IsOrdered int_cmp map.old }
    requires sound { IsSound (table map.old) }
    requires up { start ≤ℤ end }
    requires cut { IsCut (table map.old) start }
    requires cut_end { IsCut (table map.old) end }
    ensures ordered { IsOrdered int_cmp map.new }
    ensures clears { ClearsRun (table map.old) id start end (table map.new) }
{
    clear(map, id, start, end);
    merge(map, start);
    merge(map, end);
}

/// Puts an id on the bytes of a run, which stands neither on them nor beside them. Where memory runs out, all stays.
pub(crate) fn add_run(
    alloc: Global,
    map: &mut CellMap,
    id: u32,
    start: i64,
    end: i64,
) -> Result<(), Memory>
    requires ordered { IsOrdered int_cmp map.old }
    requires normal { IsNormal (table map.old) }
    requires some { start <ℤ end }
    requires away { (b : ℤ) → (start -ℤ pos 1) ≤ℤ b → b ≤ℤ end → Stands (table map.old) id b → ⊥ }
    ensures ordered { IsOrdered int_cmp map.new }
    ensures normal { IsNormal (table map.new) }
    ensures stands { OnOk result ((other : ℕ) (b : ℤ) → Stands (table map.new) other b ↔ (Stands (table map.old) other b ⊎ ((other ≡ id) × IsBetween start end b))) }
    ensures err { OnErr result (StandAlike (table map.old) (table map.new)) }
{
    cut_ends(map, start, end)?;
    match fill(alloc, map, id, start, end) {
        Ok(()) => Ok(()),
        Err(error) => {
            clear_run(map, id, start, end);
            Err(error)
        }
    }
}

/// Takes an id off the bytes of a run, which stands on all of them and on none beside them.
pub(crate) fn remove_run(map: &mut CellMap, id: u32, start: i64, end: i64)
    requires ordered { IsOrdered int_cmp map.old }
    requires normal { IsNormal (table map.old) }
    requires some { start <ℤ end }
    requires there { (b : ℤ) → IsBetween start end b → Stands (table map.old) id b }
    requires first { Stands (table map.old) id (start -ℤ pos 1) → ⊥ }
    requires last { Stands (table map.old) id end → ⊥ }
    ensures ordered { IsOrdered int_cmp map.new }
    ensures normal { IsNormal (table map.new) }
    ensures stands { (other : ℕ) (b : ℤ) → Stands (table map.new) other b ↔ (Stands (table map.old) other b × ((other ≡ id) → IsBetween start end b → ⊥)) }
{
    clear_run(map, id, start, end);
}
