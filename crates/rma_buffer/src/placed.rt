//! One buffer, laid out.
ghost use Rattle.std.specs.Prelude.{◌≡◌, ◌≤◌, length, IfOk, IfErr, Ok};
ghost use Rattle.rma_type.specs.Table.{typemaps};
ghost use Rattle.rma_buffer.specs.Operands.{IsOf, entries_in};
ghost use Rattle.rma_buffer.specs.inside.Placed.{IsPlaced, fault_in};
ghost use Rattle.rma_layout.specs.Refusal.{IsErrorOf};

use crate::operand::Operand;
use rma_base::Memory;
use rma_bytes::Layout;
use rma_layout::{LayoutError, LayoutFault, LayoutTable, Space};

/// A buffer's layout, or why it has none.
pub(crate) type Placed = Result<Layout, LayoutFault>;

/// The layout of the first elements of a buffer of the caller.
pub(crate) fn place_local(
    table: &mut LayoutTable,
    operand: &Operand,
    touched: u64,
) -> Result<Layout, LayoutError>
    requires within { IsOf (length table.old.origins) operand.now }
    requires there { touched ≤ entries_in (typemaps table.old.origins) operand.now }
    ensures placed { IfOk result (λ layout. IsPlaced (typemaps table.old.origins) touched Space.Local operand.now (Ok layout)) }
    ensures fault { IfErr result (IsErrorOf (fault_in (typemaps table.old.origins) touched Space.Local operand.now)) }
    ensures same { table.new ≡ table.old }
{
    table.place_local(
        operand.datatype,
        operand.count,
        operand.address as i64,
        touched,
    )
}

/// The layout of the first elements of a buffer at a target.
pub(crate) fn place_at_target(
    table: &mut LayoutTable,
    operand: &Operand,
    touched: u64,
) -> Result<Layout, LayoutError>
    requires within { IsOf (length table.old.origins) operand.now }
    requires there { touched ≤ entries_in (typemaps table.old.origins) operand.now }
    ensures placed { IfOk result (λ layout. IsPlaced (typemaps table.old.origins) touched Space.Target operand.now (Ok layout)) }
    ensures fault { IfErr result (IsErrorOf (fault_in (typemaps table.old.origins) touched Space.Target operand.now)) }
    ensures same { table.new ≡ table.old }
{
    table.place_at_target(
        operand.datatype,
        operand.count,
        operand.address as i64,
        touched,
    )
}

/// The layout of the first elements of a buffer in a space.
fn place(
    table: &mut LayoutTable,
    operand: &Operand,
    touched: u64,
    space: Space,
) -> Result<Layout, LayoutError>
    requires within { IsOf (length table.old.origins) operand.now }
    requires there { touched ≤ entries_in (typemaps table.old.origins) operand.now }
    ensures placed { IfOk result (λ layout. IsPlaced (typemaps table.old.origins) touched space operand.now (Ok layout)) }
    ensures fault { IfErr result (IsErrorOf (fault_in (typemaps table.old.origins) touched space operand.now)) }
    ensures same { table.new ≡ table.old }
{
    match space {
        Space::Local => place_local(table, operand, touched),
        Space::Target => place_at_target(table, operand, touched),
    }
}

/// The layout of the first elements of a buffer in a space, or why it has none.
pub(crate) fn placed(
    table: &mut LayoutTable,
    operand: &Operand,
    touched: u64,
    space: Space,
) -> Result<Placed, Memory>
    requires within { IsOf (length table.old.origins) operand.now }
    requires there { touched ≤ entries_in (typemaps table.old.origins) operand.now }
    ensures placed { IfOk result (IsPlaced (typemaps table.old.origins) touched space operand.now) }
    ensures same { table.new ≡ table.old }
{
    match place(table, operand, touched, space) {
        Ok(layout) => Ok(Ok(layout)),
        Err(LayoutError::Fault(fault)) => Ok(Err(fault)),
        Err(LayoutError::Memory) => Err(Memory),
    }
}
