//! What calls touch of the memory of their own rank.
ghost use Rattle.std.specs.Prelude.{◌≡◌};
ghost use Rattle.std.specs.Option.{option_and_then};
ghost use Rattle.rma_bytes.specs.Runs.{IsCanonical};
ghost use Rattle.rma_touch.specs.Touches.{IsBuffer, own_touch};

use crate::touch::Touch;
use rma_base::Rank;
use rma_bytes::MovedLayout;
use rma_rules::{Bytes, Kind, Role};

/// What a call touches of the memory of its own rank.
pub(crate) fn own_touch<'a>(
    rank: Rank,
    role: Role,
    kind: Kind,
    layout: MovedLayout<'a>,
) -> Option<Touch<'a>>
    requires { IsCanonical layout.runs }
    ensures { result ≡ own_touch rank role kind layout.entry }
{
    if layout.is_empty() {
        return None;
    }
    Some(Touch {
        role,
        memory: rank,
        bytes: Bytes::of_buffer(layout),
        kind,
        window: None,
        element: None,
    })
}

/// The same of a buffer that may be there.
pub(crate) fn buffer_touch<'a>(
    rank: Rank,
    role: Role,
    kind: Kind,
    buffer: Option<MovedLayout<'a>>,
) -> Option<Touch<'a>>
    requires { IsBuffer buffer }
    ensures { result ≡ option_and_then (own_touch rank role kind) buffer.entry }
{
    match buffer {
        Some(layout) => own_touch(rank, role, kind, layout),
        None => None,
    }
}
