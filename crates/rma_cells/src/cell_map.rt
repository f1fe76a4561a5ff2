//! Cells by their first bytes: where they begin, and changes of one cell.
ghost use Rattle.std.specs.Prelude.{◌≡◌, ◌≢◌, ℕ, ℤ, ◌≤ℤ◌, ◌<ℤ◌, ◌↔◌, ◌⊎◌, [], IsSome, IfNone, IfSome, IfOk, OnOk, OnErr, IsTrue, MatchOption};
ghost use Rattle.std.specs.List.{Contains};
ghost use Rattle.std.specs.List.Sorted.{IsStrictlyIncreasing};
ghost use Rattle.std.specs.Ordering.{int_cmp};
ghost use Rattle.std.specs.BTreeMap.{IsOrdered, IsUnchanged};
ghost use Rattle.rma_cells.specs.Cell.{Cell};
ghost use Rattle.rma_cells.specs.inside.Table.{table, IsLast, IsFirst, IsSameTable, Puts, Inserts, Removes};

use crate::cell::Cell;
use rma_base::Memory;
use std::collections::BTreeMap;

/// Cells by their first bytes.
pub(crate) type CellMap = BTreeMap<i64, Cell>;

/// Where a cell begins and ends.
#[derive(Clone, Copy, Debug)]
pub(crate) struct Extent {
    /// The first address.
    pub start: i64,
    /// The first address after it.
    pub end: i64,
}

/// The last cell that begins before an address.
pub(crate) fn last_before(map: &CellMap, at: i64) -> Option<Extent>
    ensures { MatchOption result ((start : ℤ) → start <ℤ at → table map.now start ≡ None) (λ extent. IsLast (table map.now) at extent) }
{
    let (start, cell) = map.range(..at).next_back()?;
    Some(Extent {
        start: *start,
        end: cell.end(),
    })
}

/// The first cell that begins from one address on and before another.
pub(crate) fn first_within(map: &CellMap, from: i64, before: i64) -> Option<Extent>
    requires { from ≤ℤ before }
    ensures { MatchOption result ((start : ℤ) → from ≤ℤ start → start <ℤ before → table map.now start ≡ None) (λ extent. IsFirst (table map.now) from before extent) }
{
    let (start, cell) = map.range(from..before).next()?;
    Some(Extent {
        start: *start,
        end: cell.end(),
    })
}

/// Puts a cell where none begins.
pub(crate) fn put(map: &mut CellMap, start: i64, cell: Cell) -> Result<(), Memory>
    ensures ordered { IsOrdered int_cmp map.new }
    ensures puts { OnOk result (Puts (table map.old) start (Some cell) (table map.new)) }
    ensures err { OnErr result (IsUnchanged map.old map.new) }
{
    map.insert(start, cell)?;
    Ok(())
}

/// Takes the cell out that begins at an address.
pub(crate) fn take(map: &mut CellMap, start: i64)
    ensures ordered { IsOrdered int_cmp map.new }
    ensures puts { Puts (table map.old) start None (table map.new) }
{
    map.remove(&start);
}

/// Ends a cell elsewhere.
pub(crate) fn end_at(map: &mut CellMap, start: i64, end: i64)
    ensures ordered { IsOrdered int_cmp map.old → IsOrdered int_cmp map.new }
    ensures puts { (cell : Cell) → table map.old start ≡ Some cell → Puts (table map.old) start (Some (record cell { end = end })) (table map.new) }
{
    if let Some(cell) = map.get_mut(&start) {
        cell.end_at(end);
    }
}

/// Where the next cell from `at` on begins, and `before` where none does before it.
pub(crate) fn gap_end(map: &CellMap, at: i64, before: i64) -> i64
    requires { at ≤ℤ before }
    ensures from { at ≤ℤ result }
    ensures within { result ≤ℤ before }
    ensures gap { (start : ℤ) → at ≤ℤ start → start <ℤ result → table map.now start ≡ None }
    ensures next { result <ℤ before → (cell : Cell) × (table map.now result ≡ Some cell) }
{
    match first_within(map, at, before) {
        Some(extent) => extent.start,
        None => before,
    }
}

/// Adds an id to the cell that begins at an address, and answers where it ends.
pub(crate) fn insert_id(map: &mut CellMap, start: i64, id: u32) -> Result<i64, Memory>
    requires { (cell : Cell) × (table map.old start ≡ Some cell) × IsStrictlyIncreasing cell.ids }
    ensures ordered { IsOrdered int_cmp map.new }
    ensures inserts { IfOk result (λ end. (cell : Cell) → table map.old start ≡ Some cell → (end ≡ cell.end) × ((next : Cell) × Inserts cell id next × Puts (table map.old) start (Some next) (table map.new))) }
    ensures err { OnErr result (IsSameTable (table map.old) (table map.new)) }
{
    match map.get_mut(&start) {
        Some(cell) => {
            cell.insert(id)?;
            Ok(cell.end())
        }
        None => unreachable!(),
    }
}

/// Takes an id out of the cell that begins at an address, and answers whether no other stands there.
pub(crate) fn remove_id(map: &mut CellMap, start: i64, id: u32) -> bool
    requires { (cell : Cell) × (table map.old start ≡ Some cell) × IsStrictlyIncreasing cell.ids }
    ensures ordered { IsOrdered int_cmp map.new }
    ensures removes { (cell : Cell) → table map.old start ≡ Some cell → (next : Cell) × Removes cell id next × Puts (table map.old) start (Some next) (table map.new) × (IsTrue result ↔ (next.ids ≡ [])) }
{
    match map.get_mut(&start) {
        Some(cell) => {
            cell.remove(id);
            cell.is_empty()
        }
        None => unreachable!(),
    }
}

/// A copy of the cell that begins at an address.
pub(crate) fn copy_at(map: &CellMap, start: i64) -> Result<Cell, Memory>
    requires { IsSome (table map.now start) }
    ensures { IfOk result (λ cell. table map.now start ≡ Some cell) }
{
    Ok(map[&start].copy()?)
}

/// Where the cell that begins at `at` ends, if it has the same ids as the one that begins at `start`.
pub(crate) fn alike_end(map: &CellMap, start: i64, at: i64) -> Option<i64>
    requires { IsSome (table map.now start) }
    ensures some { IfSome result (λ end. (cell : Cell) × (next : Cell) × (table map.now start ≡ Some cell) × (table map.now at ≡ Some next) × (next.ids ≡ cell.ids) × (end ≡ next.end)) }
    ensures none { IfNone result ((cell : Cell) (next : Cell) → table map.now start ≡ Some cell → table map.now at ≡ Some next → next.ids ≢ cell.ids) }
{
    let next = map.get(&at)?;
    next.has_ids_of(&map[&start]).then_some(next.end())
}
