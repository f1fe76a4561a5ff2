//! What calls do to what they touch.
ghost use Rattle.std.specs.Prelude.{◌≡◌};
ghost use Rattle.rma_touch.specs.Touch.{kind_at_origin, kind_at_target, kind_of_local};

use rma_call::{LocalAccess, RmaKind};
use rma_rules::{Kind, Operation};

/// What a call does at its target.
pub(crate) fn kind_at_target(kind: RmaKind) -> Kind
    ensures { result ≡ kind_at_target kind }
{
    match kind {
        RmaKind::Put => Kind::Put,
        RmaKind::Get => Kind::Get,
        RmaKind::Accumulate(op) => Kind::Accumulate(Operation::Combine(op)),
        RmaKind::GetAccumulate(op) => Kind::Accumulate(Operation::Combine(op)),
        RmaKind::FetchAndOp(op) => Kind::Accumulate(Operation::Combine(op)),
        RmaKind::CompareAndSwap => Kind::Accumulate(Operation::CompareAndSwap),
    }
}

/// What it does to its origin buffer.
pub(crate) fn kind_at_origin(kind: RmaKind) -> Kind
    ensures { result ≡ kind_at_origin kind }
{
    match kind {
        RmaKind::Get => Kind::BufferWrite,
        _ => Kind::BufferRead,
    }
}

/// What a rank does to its own memory.
pub(crate) fn kind_of_local(access: LocalAccess) -> Kind
    ensures { result ≡ kind_of_local access }
{
    match access {
        LocalAccess::Load => Kind::Load,
        LocalAccess::Store => Kind::Store,
        LocalAccess::Poll => Kind::Poll,
    }
}
