//! Why buffers are bad.
ghost use Rattle.std.specs.Prelude.{◌≡◌};
ghost use Rattle.rma_buffer.specs.Rules.{layout_reason};
ghost use Rattle.rma_buffer.specs.declared.fault.BufferError.TheVariants as errors;

use rma_base::{FormReason, Memory};
use rma_layout::LayoutFault;
use thiserror::Error;

/// Why there is no call.
#[derive(Clone, Copy, Debug, PartialEq, Eq, Error)]
pub enum BufferError {
    /// The buffers are bad.
    #[error("{}", .0.word())]
    Fault(FormReason),
    /// Memory ran out.
    #[error("memory")]
    Memory,
}

impl From<Memory> for BufferError {
    ghost from_gives = { λ _ error. error ≡ errors.Memory };

    fn from(_memory: Memory) -> BufferError {
        BufferError::Memory
    }
}

/// The reason that stands for the refusal of a layout.
pub(crate) fn layout_reason(fault: LayoutFault) -> FormReason
    ensures { result ≡ layout_reason fault }
{
    match fault {
        LayoutFault::TooManyElements => FormReason::TooManyElements,
        LayoutFault::TooManyBlocks => FormReason::TooManyBlocks,
        LayoutFault::OutOfSpace => FormReason::OutOfSpace,
    }
}
