//! What a rank brings to a window.
ghost use Rattle.std.specs.Prelude.{◌≡◌};
ghost use Rattle.rma_window.specs.Creation.{part_of_call};

use rma_base::limits::SPACE;

/// The memory of a rank that a window exposes.
#[derive(Clone, Copy, Debug, PartialEq, Eq)]
pub struct Part {
    /// The address of its first byte.
    pub base: u64,
    /// The number of its bytes.
    pub size: u64,
    /// The number of bytes from one displacement to the next.
    pub unit: u32,
    /// The number of the call that creates the window, among the calls of the rank from 0.
    pub created: u32,
}

impl Part {
    /// The part that the creation of this number states: the whole space of addresses where the window is dynamic.
    pub(crate) fn of_call(base: u64, size: u64, unit: u32, dynamic: bool, created: u32) -> Part
        ensures { result ≡ part_of_call base size unit dynamic created }
    {
        if dynamic {
            Part {
                base: 0,
                size: SPACE,
                unit: 1,
                created,
            }
        } else {
            Part {
                base,
                size,
                unit,
                created,
            }
        }
    }
}
