//! The call of a line with its buffers.
ghost use Rattle.std.specs.Prelude.{◌≡◌, ◌≤◌, length, IfOk, IfErr, OnOk, Some, None};
ghost use Rattle.rma_buffer.specs.Calls.{rma_call_of};
ghost use Rattle.rma_buffer.specs.Operands.{AreOf, kind_of, operands_of};
ghost use Rattle.rma_buffer.specs.Rules.{IsErrorOf, buffers_reason};
ghost use Rattle.rma_buffer.specs.inside.Layouts.{HaveEnough, bytes_reason, layouts_in};
ghost use Rattle.rma_base.specs.Limits.{element_limit};
ghost use Rattle.rma_buffer.specs.inside.Shape.{IsShaped};
ghost use Rattle.rma_type.specs.Table.{typemaps};
ghost use Rattle.rma_buffer.specs.Calls.{moved_count};

use crate::fault::BufferError;
use crate::layouts::{Layouts, lay_out};
use crate::operand::{Operands, kind_of};
use crate::rule::{are_committed, reason, touched_count};
use rma_base::{FormReason, Rank};
use rma_call::{RmaCall, RmaKind};
use rma_form::RmaLine;
use rma_layout::LayoutTable;
use rma_type::TypeTable;

/// The call of a line that accesses the part of a target, with these buffers.
///
/// # Errors
///
/// The first reason for which the buffers are bad, and [`BufferError::Memory`].
pub fn one_sided_call(
    table: &mut LayoutTable,
    line: &RmaLine,
    operands: &Operands,
) -> Result<RmaCall, BufferError>
    requires within { AreOf (length table.old.origins) operands.now }
    requires are { operands_of table.old.live line.now.access ≡ Some operands.now }
    ensures ok { IfOk result (λ call. call ≡ rma_call_of table.old.origins line.now operands.now) }
    ensures taken { OnOk result (buffers_reason table.old.origins table.old.committed (kind_of line.now.access) line.now.target operands.now ≡ None) }
    ensures fault { IfErr result (IsErrorOf (buffers_reason table.old.origins table.old.committed (kind_of line.now.access) line.now.target operands.now)) }
    ensures same { table.new ≡ table.old }
{
    let kind = kind_of(&line.access);
    let layouts = judged_layouts(table, kind, line.target, operands)?;
    let Layouts {
        target,
        origin,
        result,
        compare,
    } = layouts;
    Ok(RmaCall {
        window: line.window.copy()?,
        target: line.target,
        kind,
        displacement: line.displacement,
        at_target: target,
        origin,
        result,
        compare,
    })
}

// The layouts of the buffers of a call, where they are good.
fn judged_layouts(
    table: &mut LayoutTable,
    kind: RmaKind,
    target: Option<Rank>,
    operands: &Operands,
) -> Result<Layouts, BufferError>
    requires within { AreOf (length table.old.origins) operands.now }
    requires shaped { IsShaped kind operands.now }
    ensures ok { IfOk result (λ layouts. layouts ≡ layouts_in (typemaps table.old.origins) kind (moved_count (typemaps table.old.origins) kind target operands.now) operands.now) }
    ensures taken { OnOk result (buffers_reason table.old.origins table.old.committed kind target operands.now ≡ None) }
    ensures fault { IfErr result (IsErrorOf (buffers_reason table.old.origins table.old.committed kind target operands.now)) }
    ensures same { table.new ≡ table.old }
{
    let touched = judged_count(table.types(), kind, target, operands)?;
    lay_out(table, kind, operands, touched)
}

// How many elements move, where no rule is broken that asks no layout.
fn judged_count(
    types: &TypeTable,
    kind: RmaKind,
    target: Option<Rank>,
    operands: &Operands,
) -> Result<u64, BufferError>
    requires within { AreOf (length types.now.origins) operands.now }
    requires shaped { IsShaped kind operands.now }
    ensures count { IfOk result (λ m. m ≡ moved_count (typemaps types.now.origins) kind target operands.now) }
    ensures few { IfOk result (λ m. m ≤ element_limit) }
    ensures there { IfOk result (λ m. HaveEnough (typemaps types.now.origins) kind m operands.now) }
    ensures rest { IfOk result (λ m. buffers_reason types.now.origins types.now.committed kind target operands.now ≡ bytes_reason (typemaps types.now.origins) kind m operands.now) }
    ensures fault { IfErr result (IsErrorOf (buffers_reason types.now.origins types.now.committed kind target operands.now)) }
{
    if !are_committed(types, operands) {
        return Err(BufferError::Fault(FormReason::NotCommitted));
    }
    if target.is_none() {
        return Ok(0);
    }
    let touched = touched_count(types, kind, operands);
    match reason(types, kind, operands, touched) {
        Some(reason) => Err(BufferError::Fault(reason)),
        None => Ok(touched),
    }
}
