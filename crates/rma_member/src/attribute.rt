//! What communicators and windows are declared with.
ghost use Rattle.std.specs.Prelude.{◌≡◌};
ghost use Rattle.rma_member.specs.Attribute.{declared, same_ranks, created, same_attributes, same_model, same_ops};

use crate::declaration::Attributes;
use rma_base::{AccOps, Memory, Name, RankSet, WinModel};
use rma_call::{FrameCall, WhatRef, WindowCall};

/// What a window is created with, as far as all ranks have to agree.
#[derive(Drop)]
pub struct WindowAttributes {
    /// The communicator that it is created on.
    pub comm: Name,
    /// Its memory model.
    pub model: WinModel,
    /// Which accumulate operations may overlap.
    pub ops: AccOps,
    /// Whether memory is attached to it later.
    pub dynamic: bool,
}

/// A communicator is declared with its ranks.
impl Attributes for RankSet {
    ghost stated = { declared };

    ghost agrees = { same_ranks };

    fn of(what: WhatRef<'_>) -> Result<Option<(Name, RankSet)>, Memory> {
        match what {
            WhatRef::Frame(FrameCall::Comm { comm, ranks }) => {
                let name = comm.copy()?;
                let ranks = ranks.copy()?;
                Ok(Some((name, ranks)))
            }
            _ => Ok(None),
        }
    }

    fn agrees_with(&self, first: &RankSet) -> bool {
        self.numbers() == first.numbers()
    }
}

/// A window is declared by its creation.
impl Attributes for WindowAttributes {
    ghost stated = { created };

    ghost agrees = { same_attributes };

    fn of(what: WhatRef<'_>) -> Result<Option<(Name, WindowAttributes)>, Memory> {
        match what {
            WhatRef::Window(
                WindowCall::Create {
                    window,
                    comm,
                    model,
                    ops,
                    dynamic,
                    ..
                },
            ) => {
                let name = window.copy()?;
                let comm = comm.copy()?;
                let attributes = WindowAttributes {
                    comm,
                    model: *model,
                    ops: *ops,
                    dynamic: *dynamic,
                };
                Ok(Some((name, attributes)))
            }
            _ => Ok(None),
        }
    }

    fn agrees_with(&self, first: &WindowAttributes) -> bool {
        self.comm == first.comm
            && is_same_model(self.model, first.model)
            && are_same_ops(self.ops, first.ops)
            && self.dynamic == first.dynamic
    }
}

fn is_same_model(a: WinModel, b: WinModel) -> bool
    ensures { result ≡ same_model b a }
{
    a == b
}

fn are_same_ops(a: AccOps, b: AccOps) -> bool
    ensures { result ≡ same_ops b a }
{
    a == b
}
