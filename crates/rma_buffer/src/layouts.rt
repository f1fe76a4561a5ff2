//! The buffers of a call, laid out.
ghost use Rattle.std.specs.Prelude.{◌≡◌, ◌≤◌, length, IfOk, IfErr, OnOk, None, IfSome, option_map, Ok};
ghost use Rattle.std.specs.Option.{option_and_then};
ghost use Rattle.rma_base.specs.Limits.{element_limit};
ghost use Rattle.rma_base.specs.declared.form_reason.FormReason.TheVariants as FormReason;
ghost use Rattle.rma_type.specs.Table.{typemaps};
ghost use Rattle.rma_buffer.specs.Operands.{AreOf, IsOf};
ghost use Rattle.rma_buffer.specs.Rules.{IsErrorOf, overlap, layout_reason};
ghost use Rattle.rma_buffer.specs.inside.Layouts.{HasEnough, HaveEnough, bytes_reason, fault_of, layout_of, layouts_in, overlaps_if, overlaps_in, space_reason, touched_origin, worse};
ghost use Rattle.rma_buffer.specs.inside.Placed.{ArePlaced};

use crate::fault::{BufferError, layout_reason};
use crate::operand::{Operand, Operands};
use crate::placed::{Placed, place_at_target, place_local, placed};
use crate::rule::uses_origin;
use rma_base::{FormReason, Memory};
use rma_bytes::Layout;
use rma_call::RmaKind;
use rma_layout::{LayoutError, LayoutFault, LayoutTable, Space};

/// The layouts of the buffers of a call.
#[derive(Debug, Drop)]
pub(crate) struct Layouts {
    pub(crate) target: Layout,
    pub(crate) origin: Option<Layout>,
    pub(crate) result: Option<Layout>,
    pub(crate) compare: Option<Layout>,
}

/// The layouts of the first elements of the buffers of a call.
///
/// # Errors
///
/// The reason for which they are bad, and [`BufferError::Memory`].
pub(crate) fn lay_out(
    table: &mut LayoutTable,
    kind: RmaKind,
    operands: &Operands,
    touched: u64,
) -> Result<Layouts, BufferError>
    requires within { AreOf (length table.old.origins) operands.now }
    requires few { touched ≤ element_limit }
    requires there { HaveEnough (typemaps table.old.origins) kind touched operands.now }
    ensures ok { IfOk result (λ layouts. layouts ≡ layouts_in (typemaps table.old.origins) kind touched operands.now) }
    ensures taken { OnOk result (bytes_reason (typemaps table.old.origins) kind touched operands.now ≡ None) }
    ensures fault { IfErr result (IsErrorOf (bytes_reason (typemaps table.old.origins) kind touched operands.now)) }
    ensures same { table.new ≡ table.old }
{
    let layouts = layouts_or_reason(table, kind, operands, touched)?;
    if overlap(kind, &layouts) {
        return Err(BufferError::Fault(FormReason::OverlappingType));
    }
    Ok(layouts)
}

// The layouts, or the first refusal in the order of the reasons. Mostly there is none, and all buffers need not be asked for it.
fn layouts_or_reason(
    table: &mut LayoutTable,
    kind: RmaKind,
    operands: &Operands,
    touched: u64,
) -> Result<Layouts, BufferError>
    requires within { AreOf (length table.old.origins) operands.now }
    requires few { touched ≤ element_limit }
    requires there { HaveEnough (typemaps table.old.origins) kind touched operands.now }
    ensures ok { IfOk result (λ layouts. layouts ≡ layouts_in (typemaps table.old.origins) kind touched operands.now) }
    ensures taken { OnOk result (space_reason (typemaps table.old.origins) kind touched operands.now ≡ None) }
    ensures fault { IfErr result (IsErrorOf (space_reason (typemaps table.old.origins) kind touched operands.now)) }
    ensures same { table.new ≡ table.old }
{
    match all_layouts(table, kind, operands, touched) {
        Ok(layouts) => Ok(layouts),
        Err(LayoutError::Fault(_)) => laid_out(table, kind, operands, touched),
        Err(LayoutError::Memory) => Err(BufferError::Memory),
    }
}

// The layouts, where no buffer is refused.
fn all_layouts(
    table: &mut LayoutTable,
    kind: RmaKind,
    operands: &Operands,
    touched: u64,
) -> Result<Layouts, LayoutError>
    requires within { AreOf (length table.old.origins) operands.now }
    requires few { touched ≤ element_limit }
    requires there { HaveEnough (typemaps table.old.origins) kind touched operands.now }
    ensures ok { IfOk result (λ layouts. layouts ≡ layouts_in (typemaps table.old.origins) kind touched operands.now) }
    ensures taken { OnOk result (space_reason (typemaps table.old.origins) kind touched operands.now ≡ None) }
    ensures same { table.new ≡ table.old }
{
    let target = place_at_target(table, &operands.target, touched)?;
    let origin = place_origin(table, kind, operands, touched)?;
    let result = place_if(table, operands.result, touched)?;
    let compare = place_if(table, operands.compare, touched)?;
    Ok(Layouts {
        target,
        origin,
        result,
        compare,
    })
}

// The layout of the first elements of the origin, if it is touched.
fn place_origin(
    table: &mut LayoutTable,
    kind: RmaKind,
    operands: &Operands,
    touched: u64,
) -> Result<Option<Layout>, LayoutError>
    requires within { AreOf (length table.old.origins) operands.now }
    requires few { touched ≤ element_limit }
    requires there { HaveEnough (typemaps table.old.origins) kind touched operands.now }
    ensures placed { IfOk result (λ layout. ArePlaced (typemaps table.old.origins) touched (touched_origin kind operands.now) (option_map Ok layout)) }
    ensures same { table.new ≡ table.old }
{
    if !uses_origin(kind) {
        return Ok(None);
    }
    Ok(Some(place_local(table, &operands.origin, touched)?))
}

// The layout of the first elements of a buffer of the caller, if there is one.
fn place_if(
    table: &mut LayoutTable,
    operand: Option<Operand>,
    touched: u64,
) -> Result<Option<Layout>, LayoutError>
    requires within { IfSome operand (IsOf (length table.old.origins)) }
    requires there { IfSome operand (HasEnough (typemaps table.old.origins) touched) }
    ensures placed { IfOk result (λ layout. ArePlaced (typemaps table.old.origins) touched operand (option_map Ok layout)) }
    ensures same { table.new ≡ table.old }
{
    match operand {
        Some(operand) => Ok(Some(place_local(table, &operand, touched)?)),
        None => Ok(None),
    }
}

// The layouts, or the first refusal in the order of the reasons: each buffer is asked, since a later one may be refused first.
fn laid_out(
    table: &mut LayoutTable,
    kind: RmaKind,
    operands: &Operands,
    touched: u64,
) -> Result<Layouts, BufferError>
    requires within { AreOf (length table.old.origins) operands.now }
    requires few { touched ≤ element_limit }
    requires there { HaveEnough (typemaps table.old.origins) kind touched operands.now }
    ensures ok { IfOk result (λ layouts. layouts ≡ layouts_in (typemaps table.old.origins) kind touched operands.now) }
    ensures taken { OnOk result (space_reason (typemaps table.old.origins) kind touched operands.now ≡ None) }
    ensures fault { IfErr result (IsErrorOf (space_reason (typemaps table.old.origins) kind touched operands.now)) }
    ensures same { table.new ≡ table.old }
{
    let target = placed(table, &operands.target, touched, Space::Target)?;
    let origin = placed_origin(table, kind, operands, touched)?;
    let result = placed_if(table, operands.result, touched)?;
    let compare = placed_if(table, operands.compare, touched)?;
    let others = worse(
        fault_if(&origin),
        worse(fault_if(&result), fault_if(&compare)),
    );
    if let Some(fault) = worse(fault_of(&target), others) {
        return Err(BufferError::Fault(layout_reason(fault)));
    }
    match target {
        Ok(target) => Ok(Layouts {
            target,
            origin: layout_if(origin),
            result: layout_if(result),
            compare: layout_if(compare),
        }),
        Err(fault) => Err(BufferError::Fault(layout_reason(fault))),
    }
}

// The layout of the first elements of the origin, if it is touched, or why it has none.
fn placed_origin(
    table: &mut LayoutTable,
    kind: RmaKind,
    operands: &Operands,
    touched: u64,
) -> Result<Option<Placed>, Memory>
    requires within { AreOf (length table.old.origins) operands.now }
    requires few { touched ≤ element_limit }
    requires there { HaveEnough (typemaps table.old.origins) kind touched operands.now }
    ensures placed { IfOk result (ArePlaced (typemaps table.old.origins) touched (touched_origin kind operands.now)) }
    ensures same { table.new ≡ table.old }
{
    if uses_origin(kind) {
        Ok(Some(placed(table, &operands.origin, touched, Space::Local)?))
    } else {
        Ok(None)
    }
}

// The layout of the first elements of a buffer of the caller, if there is one, or why it has none.
fn placed_if(
    table: &mut LayoutTable,
    operand: Option<Operand>,
    touched: u64,
) -> Result<Option<Placed>, Memory>
    requires within { IfSome operand (IsOf (length table.old.origins)) }
    requires few { touched ≤ element_limit }
    requires there { IfSome operand (HasEnough (typemaps table.old.origins) touched) }
    ensures placed { IfOk result (ArePlaced (typemaps table.old.origins) touched operand) }
    ensures same { table.new ≡ table.old }
{
    match operand {
        Some(operand) => Ok(Some(placed(table, &operand, touched, Space::Local)?)),
        None => Ok(None),
    }
}

// The refusal of two that comes first in the order of the reasons.
fn worse(first: Option<LayoutFault>, second: Option<LayoutFault>) -> Option<LayoutFault>
    ensures { result ≡ worse first second }
{
    match (first, second) {
        (Some(LayoutFault::TooManyBlocks), _) => first,
        (None, _) | (_, Some(LayoutFault::TooManyBlocks)) => second,
        _ => first,
    }
}

// Why a buffer was refused, if it was.
fn fault_of(placed: &Placed) -> Option<LayoutFault>
    ensures { result ≡ fault_of placed.now }
{
    match placed {
        Ok(_) => None,
        Err(fault) => Some(*fault),
    }
}

// Why a buffer was refused, if there is one and it was.
fn fault_if(placed: &Option<Placed>) -> Option<LayoutFault>
    ensures { result ≡ option_and_then fault_of placed.now }
{
    match placed {
        Some(placed) => fault_of(placed),
        None => None,
    }
}

// The layout of a buffer, if there is one and it was not refused.
fn layout_if(placed: Option<Placed>) -> Option<Layout>
    ensures { result ≡ option_and_then layout_of placed }
{
    match placed {
        Some(Ok(layout)) => Some(layout),
        Some(Err(_)) | None => None,
    }
}

// Whether two elements share a byte in a buffer that is written.
fn overlap(kind: RmaKind, layouts: &Layouts) -> bool
    ensures { result ≡ overlaps_in kind layouts.now }
{
    let written = match kind {
        RmaKind::Get => overlaps_if(&layouts.origin),
        _ => layouts.target.overlaps(),
    };
    written || overlaps_if(&layouts.result)
}

// Whether two elements share a byte in a layout, if there is one.
fn overlaps_if(layout: &Option<Layout>) -> bool
    ensures { result ≡ overlaps_if layout.now }
{
    match layout {
        Some(layout) => layout.overlaps(),
        None => false,
    }
}
