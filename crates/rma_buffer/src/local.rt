//! The local access of a line.
ghost use Rattle.std.specs.Prelude.{◌≡◌, length, IfOk, IfErr, OnOk, None};
ghost use Rattle.rma_buffer.specs.Calls.{local_call_of};
ghost use Rattle.rma_buffer.specs.Operands.{IsOf};
ghost use Rattle.rma_buffer.specs.Rules.{IsErrorOf, memory_reason};

use crate::fault::{BufferError, layout_reason};
use crate::operand::Operand;
use crate::placed::place_local;
use crate::rule::entries;
use rma_call::{LocalAccess, LocalCall};
use rma_layout::{LayoutError, LayoutTable};

/// The local access of a line that does this with this memory.
///
/// # Errors
///
/// The reason for which the memory is bad, and [`BufferError::Memory`].
pub fn local_call(
    table: &mut LayoutTable,
    access: LocalAccess,
    memory: &Operand,
) -> Result<LocalCall, BufferError>
    requires within { IsOf (length table.old.origins) memory.now }
    ensures ok { IfOk result (λ call. call ≡ local_call_of table.old.origins access memory.now) }
    ensures taken { OnOk result (memory_reason table.old.origins memory.now ≡ None) }
    ensures fault { IfErr result (IsErrorOf (memory_reason table.old.origins memory.now)) }
    ensures same { table.new ≡ table.old }
{
    let touched = entries(table.types(), memory);
    match place_local(table, memory, touched) {
        Ok(layout) => Ok(LocalCall { access, layout }),
        Err(LayoutError::Fault(fault)) => Err(BufferError::Fault(layout_reason(fault))),
        Err(LayoutError::Memory) => Err(BufferError::Memory),
    }
}
