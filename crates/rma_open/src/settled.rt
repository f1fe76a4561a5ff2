//! What of a call on a window is settled, whatever is open there.
ghost use Rattle.std.specs.Prelude.{◌≡◌, List, false};
ghost use Rattle.std.specs.Option.{option_map_or};
ghost use Rattle.rma_call.specs.Rma.{access_of};
ghost use Rattle.rma_call.specs.Call.{what_of};
ghost use Rattle.rma_call.specs.declared.what.What.TheVariants.{Rma};
ghost use Rattle.rma_window.specs.Windows.{Window};
ghost use Rattle.rma_open.specs.Calls.{number_on, part_on};
ghost use Rattle.rma_open.specs.Range.{touches_outside};
ghost use Rattle.rma_open.specs.inside.Settled.{settled_by};

use crate::member::names_stranger;
use crate::range::touches_outside;
use rma_call::{RmaRef, WhatRef};
use rma_window::{Part, WindowId, Windows};

/// What of a call on a window is settled, whatever is open there. It is asked once for all calls that do the same.
#[derive(Clone, Copy, Debug)]
pub struct Settled {
    /// Whether a rank that the call names has no part of the window.
    pub not_member: bool,
    /// Whether it touches a byte outside its target's part.
    pub outside_window: bool,
}

impl Settled {
    /// What is settled of a call that does this, on the window of this number among those of the run, if it is one of them, and
    /// to a target with this part of it.
    pub fn of(
        windows: &Windows,
        window: Option<WindowId>,
        part: Option<Part>,
        what: WhatRef<'_>,
    ) -> Settled
        requires window { window ≡ number_on windows.now (what_of what) }
        requires part { part ≡ part_on windows.now (what_of what) }
        ensures { result ≡ settled_by windows.now (what_of what.entry) }
    {
        match what {
            WhatRef::Rma(access) => Settled::of_access(part, access),
            WhatRef::Epoch(call) => Settled {
                not_member: names_stranger(windows, window, call),
                outside_window: false,
            },
            _ => Settled {
                not_member: false,
                outside_window: false,
            },
        }
    }

    /// The same of an access, to a target with this part.
    fn of_access(part: Option<Part>, access: RmaRef<'_>) -> Settled
        ensures { (windows : List Window) → part ≡ part_on windows (Rma (access_of access.entry)) → result ≡ settled_by windows (Rma (access_of access.entry)) }
    {
        let lacks_part = part.is_none();
        Settled {
            not_member: access.target().is_some() && lacks_part,
            outside_window: is_outside(part, access),
        }
    }
}

/// Whether the access touches a byte outside the part, if there is one.
fn is_outside(part: Option<Part>, access: RmaRef<'_>) -> bool
    ensures { result ≡ option_map_or (λ part. touches_outside part (access_of access.entry).displacement (access_of access.entry).at_target.runs) part false }
{
    match part {
        Some(part) => touches_outside(part, access.displacement(), access.at_target()),
        None => false,
    }
}
