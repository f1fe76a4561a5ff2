//! What a call touches.
ghost use Rattle.std.specs.Prelude.{◌≡◌, ◌<◌, ◌≤◌, ◌+◌, ◌^◌, List, Some, None, IfSome};
ghost use Rattle.std.specs.Option.{option_and_then};
ghost use Rattle.rma_base.specs.Limits.{address_limit};
ghost use Rattle.rma_call.specs.Call.{call_of, what_of};
ghost use Rattle.rma_call.specs.Rma.{access_of};
ghost use Rattle.rma_call.specs.declared.what.What.TheVariants.{Rma};
ghost use Rattle.rma_window.specs.Windows.{Window, number_of};
ghost use Rattle.rma_open.specs.Calls.{number_on, part_on};
ghost use Rattle.rma_touch.specs.Touches.{HasBuffers, access_with, target_touch, touch_at};

use crate::buffer::{buffer_touch, own_touch};
use crate::kinds::{kind_at_origin, kind_of_local};
use crate::span::Span;
use crate::target::touch_in;
use rma_base::Rank;
use rma_bytes::MovedLayout;
use rma_call::{CallRef, RmaRef, WhatRef};
use rma_datatype::Basic;
use rma_rules::{Access, AccessName, Bytes, Kind, Role};
use rma_window::{Part, WindowId};
use std::marker::Model;

/// What a call touches in a role.
#[derive(Debug, Drop)]
pub struct Touch<'a> {
    /// The role.
    pub role: Role,
    /// The rank whose memory is touched.
    pub memory: Rank,
    /// The bytes that are touched there.
    pub bytes: Bytes<'a>,
    /// What is done to them.
    pub kind: Kind,
    /// The window through which it is done at a target.
    pub window: Option<WindowId>,
    /// The basic datatype of the elements at a target, where they have one.
    pub element: Option<Basic>,
}

impl<'a> Model for Touch<'a> {
    ghost use Rattle.rma_touch.specs.Touch.{Touch};

    ghost Value = { Touch };

    ghost view = { λ own. record { role = own.role; memory = own.memory; runs = own.bytes; kind = own.kind; window = own.window; element = own.element } };
}

/// What a call of a rank touches in a role. If the call is on a window of the run, this is its number, and if it is an access
/// whose target has a part of the window, this is the part.
pub fn touch_at<'a>(
    rank: Rank,
    what: WhatRef<'a>,
    window: Option<WindowId>,
    part: Option<Part>,
    role: Role,
) -> Option<Touch<'a>>
    requires buffers { HasBuffers (what_of what) }
    requires space { IfSome part (λ part. part.base + part.size ≤ address_limit) }
    ensures { (windows : List Window) → window ≡ number_on windows (what_of what.entry) → part ≡ part_on windows (what_of what.entry) → result ≡ touch_at windows rank (what_of what.entry) role }
{
    match (what, role) {
        (WhatRef::Local(local), Role::Local) => {
            let _in_order = local.layout.is_empty();
            let layout = MovedLayout::unmoved(&local.layout);
            own_touch(rank, role, kind_of_local(local.access), layout)
        }
        (WhatRef::Rma(access), Role::Target) => target_touch(access, window, part),
        (WhatRef::Rma(access), Role::Origin) => {
            access.target()?;
            buffer_touch(rank, role, kind_at_origin(access.kind()), access.origin())
        }
        (WhatRef::Rma(access), Role::Result) => {
            access.target()?;
            buffer_touch(rank, role, Kind::BufferWrite, access.result())
        }
        (WhatRef::Rma(access), Role::Compare) => {
            access.target()?;
            buffer_touch(rank, role, Kind::BufferRead, access.compare())
        }
        _ => None,
    }
}

/// What an access touches at its target.
fn target_touch<'a>(
    access: RmaRef<'a>,
    window: Option<WindowId>,
    part: Option<Part>,
) -> Option<Touch<'a>>
    requires { IfSome part (λ part. part.base + part.size ≤ address_limit) }
    ensures { (windows : List Window) → window ≡ number_of windows (access_of access.entry).window → part ≡ part_on windows (Rma (access_of access.entry)) → result ≡ target_touch windows (access_of access.entry) }
{
    match (access.target(), window, part) {
        (Some(target), Some(window), Some(part)) => touch_in(part, window, target, access),
        _ => None,
    }
}

impl<'a> Touch<'a> {
    /// The access that the call of this number of a rank makes by this, with its span.
    pub fn access(self, rank: Rank, number: u32, call: CallRef<'a>, span: Span<'a>) -> Access<'a>
        requires { number < 2 ^ 31 }
        ensures { result ≡ access_with rank number (call_of call.entry) self.entry span.entry }
    {
        Access {
            name: AccessName {
                rank,
                line: call.line,
                role: self.role,
            },
            site: call.site,
            call: number,
            memory: self.memory,
            bytes: self.bytes,
            kind: self.kind,
            window: self.window,
            element: self.element,
            opening: span.opening,
            done: span.done,
            locks: span.locks,
        }
    }
}
