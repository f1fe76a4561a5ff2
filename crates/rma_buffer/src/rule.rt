//! The rules of one-sided communication for the datatypes of buffers (MPI 4.0, "One-Sided Communications").
ghost use Rattle.std.specs.Prelude.{◌≡◌, ◌≤◌, length, nat_lt, slice_get, option_to_list, flat_map, ◌∷◌, [], IfSome};
ghost use Rattle.std.specs.List.{list_all, list_any};
ghost use Rattle.rma_base.specs.Limits.{element_limit};
ghost use Rattle.rma_base.specs.declared.form_reason.FormReason.TheVariants as FormReason;
ghost use Rattle.rma_type.specs.Signature.{IsComponentOf};
ghost use Rattle.rma_type.specs.Table.{typemaps};
ghost use Rattle.rma_buffer.specs.Operands.{AreOf, IsOf, entries_in};
ghost use Rattle.rma_buffer.specs.Rules.{are_committed, is_committed, is_no_op, uses_origin, combined, basics_in, basic_in, is_refused, touched_count, begins_with, signature_of, differs, first_that_holds};

use crate::element::{is_allowed, joined};
use crate::operand::{Operand, Operands};
use rma_base::FormReason;
use rma_base::limits::ELEMENTS;
use rma_call::RmaKind;
use rma_datatype::{Basic, Op, can_compare_and_swap};
use rma_type::{Component, TypeTable};

/// Whether the datatypes of all buffers are committed.
pub(crate) fn are_committed(types: &TypeTable, operands: &Operands) -> bool
    requires { AreOf (length types.now.origins) operands.now }
    ensures { result ≡ are_committed types.now.committed operands.now }
{
    types.committed(operands.target.datatype)
        && types.committed(operands.origin.datatype)
        && is_committed_if(types, operands.result)
        && is_committed_if(types, operands.compare)
}

// Whether the datatype of a buffer is committed, if there is one.
fn is_committed_if(types: &TypeTable, operand: Option<Operand>) -> bool
    requires { IfSome operand (IsOf (length types.now.origins)) }
    ensures { result ≡ list_all (is_committed types.now.committed) (option_to_list operand) }
{
    match operand {
        Some(operand) => types.committed(operand.datatype),
        None => true,
    }
}

/// Whether the operation leaves what stands at the target.
fn is_no_op(operation: Op) -> bool
    ensures { result ≡ is_no_op operation }
{
    operation == Op::NoOp
}

/// Whether the call reads its origin, or writes it.
pub(crate) fn uses_origin(kind: RmaKind) -> bool
    ensures { result ≡ uses_origin kind }
{
    match kind {
        RmaKind::Accumulate(operation)
        | RmaKind::GetAccumulate(operation)
        | RmaKind::FetchAndOp(operation) => !is_no_op(operation),
        RmaKind::Put | RmaKind::Get | RmaKind::CompareAndSwap => true,
    }
}

/// How many elements a buffer has.
pub(crate) fn entries(types: &TypeTable, operand: &Operand) -> u64
    requires { IsOf (length types.now.origins) operand.now }
    ensures { result ≡ entries_in (typemaps types.now.origins) operand.now }
{
    u64::from(operand.count) * types.entries(operand.datatype)
}

/// How many elements are touched in each buffer of a call with a target.
pub(crate) fn touched_count(types: &TypeTable, kind: RmaKind, operands: &Operands) -> u64
    requires { AreOf (length types.now.origins) operands.now }
    ensures { result ≡ touched_count (typemaps types.now.origins) kind operands.now }
{
    match kind {
        RmaKind::Get => entries(types, &operands.target),
        RmaKind::GetAccumulate(operation) if is_no_op(operation) => entries(
            types,
            &operands.target,
        ),
        _ => entries(types, &operands.origin),
    }
}

/// Why a call with a target breaks a rule for its datatypes, if it does. So many elements are touched.
pub(crate) fn reason(
    types: &TypeTable,
    kind: RmaKind,
    operands: &Operands,
    touched: u64,
) -> Option<FormReason>
    requires within { AreOf (length types.now.origins) operands.now }
    requires touched { touched ≡ touched_count (typemaps types.now.origins) kind operands.now }
    ensures { result ≡ first_that_holds (
        (FormReason.OperationNotAllowed, is_refused types.now.origins kind operands.now)
        ∷ (FormReason.TooManyElements, nat_lt element_limit touched)
        ∷ (FormReason.SignatureDiffers, differs (typemaps types.now.origins) kind operands.now)
        ∷ []) }
{
    if is_refused(types, kind, operands) {
        Some(FormReason::OperationNotAllowed)
    } else if touched > ELEMENTS {
        Some(FormReason::TooManyElements)
    } else if differs(types, kind, operands, touched) {
        Some(FormReason::SignatureDiffers)
    } else {
        None
    }
}

// Whether the operation is not allowed for the datatypes.
fn is_refused(types: &TypeTable, kind: RmaKind, operands: &Operands) -> bool
    requires { AreOf (length types.now.origins) operands.now }
    ensures { result ≡ is_refused types.now.origins kind operands.now }
{
    match kind {
        RmaKind::Put | RmaKind::Get => false,
        RmaKind::Accumulate(operation) => {
            is_no_op(operation) || !is_allowed(operation, combined(types, operation, operands))
        }
        RmaKind::GetAccumulate(operation) => {
            !is_allowed(operation, combined(types, operation, operands))
        }
        RmaKind::FetchAndOp(operation) => match basic(types, &operands.target) {
            Some(basic) => !operation.allows(basic),
            None => true,
        },
        RmaKind::CompareAndSwap => match basic(types, &operands.target) {
            Some(basic) => !can_compare_and_swap(basic),
            None => true,
        },
    }
}

// The basic datatype that all elements of the datatypes have to which an accumulate speaks.
fn combined(types: &TypeTable, operation: Op, operands: &Operands) -> Component
    requires { AreOf (length types.now.origins) operands.now }
    ensures { IsComponentOf (combined types.now.origins operation operands.now) result }
{
    let origin = if is_no_op(operation) {
        None
    } else {
        Some(operands.origin)
    };
    let target = types.component(operands.target.datatype);
    let others = joined(
        component_if(types, origin),
        component_if(types, operands.result),
    );
    joined(target, others)
}

// The basic datatype that all elements of the datatype of a buffer have, if there is one.
fn component_if(types: &TypeTable, operand: Option<Operand>) -> Component
    requires { IfSome operand (IsOf (length types.now.origins)) }
    ensures { IsComponentOf (flat_map (basics_in (typemaps types.now.origins)) (option_to_list operand)) result }
{
    match operand {
        Some(operand) => types.component(operand.datatype),
        None => Component::Empty,
    }
}

// The basic datatype of a buffer, where its datatype is one.
fn basic(types: &TypeTable, operand: &Operand) -> Option<Basic>
    requires { IsOf (length types.now.origins) operand.now }
    ensures { result ≡ basic_in (slice_get types.now.origins operand.now.datatype.0) }
{
    match types.made_by(operand.datatype) {
        Some(_) => None,
        None => match types.component(operand.datatype) {
            Component::One(basic) => Some(basic),
            Component::Empty | Component::Mixed => None,
        },
    }
}

// Whether the elements that move do not fit those of a buffer, or are more.
fn differs(types: &TypeTable, kind: RmaKind, operands: &Operands, touched: u64) -> bool
    requires within { AreOf (length types.now.origins) operands.now }
    requires touched { touched ≡ touched_count (typemaps types.now.origins) kind operands.now }
    requires few { touched ≤ element_limit }
    ensures { result ≡ differs (typemaps types.now.origins) kind operands.now }
{
    match kind {
        RmaKind::Put | RmaKind::Accumulate(_) => !fits(types, &operands.origin, &operands.target),
        RmaKind::Get => !fits(types, &operands.target, &operands.origin),
        RmaKind::GetAccumulate(_) => {
            entries(types, &operands.target) < touched || has_fewer(types, operands.result, touched)
        }
        RmaKind::FetchAndOp(_) | RmaKind::CompareAndSwap => false,
    }
}

// Whether the elements of a buffer are a prefix of those of another.
fn fits(types: &TypeTable, part: &Operand, whole: &Operand) -> bool
    requires part { IsOf (length types.now.origins) part.now }
    requires whole { IsOf (length types.now.origins) whole.now }
    requires few { entries_in (typemaps types.now.origins) part.now ≤ element_limit }
    ensures { result ≡ begins_with (signature_of (typemaps types.now.origins) whole.now) (signature_of (typemaps types.now.origins) part.now) }
{
    if part.datatype == whole.datatype && part.count <= whole.count {
        return true;
    }
    types.fits(part.datatype, part.count, whole.datatype, whole.count)
}

// Whether a buffer, if there is one, has fewer elements than are touched.
fn has_fewer(types: &TypeTable, operand: Option<Operand>, touched: u64) -> bool
    requires { IfSome operand (IsOf (length types.now.origins)) }
    ensures { result ≡ list_any (λ one. nat_lt (entries_in (typemaps types.now.origins) one) touched) (option_to_list operand) }
{
    match operand {
        Some(operand) => entries(types, &operand) < touched,
        None => false,
    }
}
