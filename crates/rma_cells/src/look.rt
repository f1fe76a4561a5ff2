//! Which ids stand on the bytes of a run.
ghost use Rattle.std.specs.Prelude.{◌≡◌, ℕ, ℤ, ◌+◌, ◌≤◌, ◌≤ℤ◌, ◌<ℤ◌, ◌↔◌, ◌⊎◌, OnOk, count_by};
ghost use Rattle.std.specs.List.{Contains};
ghost use Rattle.std.specs.Ordering.{int_cmp};
ghost use Rattle.std.specs.BTreeMap.{IsOrdered};
ghost use Rattle.rma_cells.specs.Cell.{Cell};
ghost use Rattle.rma_cells.specs.Looks.{is_met};
ghost use Rattle.rma_cells.specs.inside.Table.{table, begins_within, BeginsWithin, IsBetween, IsSound, Stands, StandsAcross};

use crate::cell_map::CellMap;
use crate::steps::Steps;
use rma_base::Memory;
use std::sync::ledger::Ledger;

/// Adds the ids that stand on a byte and on the one before, by one cell, to a list. It looks at one cell.
fn look_across<L: Ledger>(
    map: &CellMap,
    at: i64,
    out: &mut Vec<u32>,
    steps: &mut Steps<L>,
) -> Result<(), Memory>
    requires { IsSound (table map.now) }
    ensures ids { OnOk result ((id : ℕ) → Contains out.new.items id ↔ (Contains out.old.items id ⊎ StandsAcross (table map.now) at id)) }
    ensures steps { steps.new ≤ steps.old + 1 }
{
    steps.tick();
    let Some((_, cell)) = map.range(..at).next_back() else {
        return Ok(());
    };
    if at < cell.end() {
        out.extend_from_slice(cell.ids())?;
    }
    Ok(())
}

/// Adds the ids of the cells that begin within a run to a list. It looks at these cells.
fn look_within<L: Ledger>(
    map: &CellMap,
    start: i64,
    end: i64,
    out: &mut Vec<u32>,
    steps: &mut Steps<L>,
) -> Result<(), Memory>
    requires ordered { IsOrdered int_cmp map.now }
    requires up { start ≤ℤ end }
    ensures ids { OnOk result ((id : ℕ) → Contains out.new.items id ↔ (Contains out.old.items id ⊎ BeginsWithin (table map.now) start end id)) }
    ensures steps { steps.new ≤ steps.old + count_by (begins_within start end) map.now.entries }
{
    'cells: for (_, cell) in map.range(start..end) {
        steps.tick();
        out.extend_from_slice(cell.ids())?;
    }
    Ok(())
}

/// Adds the ids that stand on the bytes of a run to a list.
pub(crate) fn look<L: Ledger>(
    map: &CellMap,
    start: i64,
    end: i64,
    out: &mut Vec<u32>,
    steps: &mut Steps<L>,
) -> Result<(), Memory>
    requires ordered { IsOrdered int_cmp map.now }
    requires sound { IsSound (table map.now) }
    requires some { start <ℤ end }
    ensures ids { OnOk result ((id : ℕ) → Contains out.new.items id ↔ (Contains out.old.items id ⊎ ((b : ℤ) × Stands (table map.now) id b × IsBetween start end b))) }
    ensures steps { steps.new ≤ steps.old + count_by (begins_within start end) map.now.entries + 1 }
{
    look_across(map, start, out, steps)?;
    look_within(map, start, end, out, steps)?;
    Ok(())
}
