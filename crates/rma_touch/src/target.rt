//! What accesses touch at their targets.
ghost use Rattle.std.specs.Prelude.{◌≡◌, ◌+◌, ◌≤◌, option_map, [], IsTrue, ◌↔◌};
ghost use Rattle.rma_base.specs.Limits.{address_limit};
ghost use Rattle.rma_call.specs.Rma.{access_of};
ghost use Rattle.rma_touch.specs.Touches.{touch_in};

use crate::kinds::kind_at_target;
use crate::touch::Touch;
use rma_base::Rank;
use rma_call::RmaRef;
use rma_open::touches_outside;
use rma_rules::{Bytes, Role};
use rma_window::{Part, WindowId};

/// What an access touches in the part of its target, where that holds each byte.
pub(crate) fn touch_in<'a>(
    part: Part,
    window: WindowId,
    target: Rank,
    access: RmaRef<'a>,
) -> Option<Touch<'a>>
    requires { part.base + part.size ≤ address_limit }
    ensures { result ≡ touch_in part window target (access_of access.entry) }
{
    let layout = access.at_target();
    if layout.is_empty() || touches_outside(part, access.displacement(), layout) {
        return None;
    }
    let by = (part.base + access.displacement() * u64::from(part.unit)) as i64;
    Some(Touch {
        role: Role::Target,
        memory: target,
        bytes: Bytes::of_target(layout, by),
        kind: kind_at_target(access.kind()),
        window: Some(window),
        element: layout.element(),
    })
}
