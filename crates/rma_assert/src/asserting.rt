//! Calls that assert something.
ghost use Rattle.std.specs.Prelude.{◌≡◌, ◌<◌, ◌^◌};
ghost use Rattle.rma_call.specs.Call.{what_of};
ghost use Rattle.rma_link.specs.Point.{entry, return_of};
ghost use Rattle.rma_assert.specs.Asserted.{assertions_of};

use rma_base::{LineNo, Point, Rank};
use rma_call::{Assertions, EpochCall, WhatRef};

/// A call of a rank, and whether it says `nocheck`.
#[derive(Clone, Copy, Debug)]
pub(crate) struct Asserting {
    /// The rank.
    pub(crate) rank: Rank,
    /// The number of the call, among the calls of the rank from 0.
    pub(crate) number: u32,
    /// Its line.
    pub(crate) line: LineNo,
    /// Whether it says `nocheck`.
    pub(crate) nocheck: bool,
}

/// The assertions of a call.
pub(crate) fn assertions_of(what: WhatRef<'_>) -> Assertions
    ensures { result ≡ assertions_of (what_of what.entry) }
{
    match what {
        WhatRef::Epoch(
            EpochCall::Fence { assertions, .. }
            | EpochCall::Post { assertions, .. }
            | EpochCall::Start { assertions, .. }
            | EpochCall::Lock { assertions, .. }
            | EpochCall::LockAll { assertions, .. },
        ) => *assertions,
        _ => Assertions::none(),
    }
}

/// Where a rank enters a call.
pub(crate) fn entry_of(rank: Rank, call: u32) -> Point
    requires { call < 2 ^ 31 }
    ensures { result ≡ entry rank call }
{
    Point {
        rank,
        pos: 2 * call,
    }
}

/// Where a rank returns from a call.
pub(crate) fn return_from(rank: Rank, call: u32) -> Point
    requires { call < 2 ^ 31 }
    ensures { result ≡ return_of rank call }
{
    Point {
        rank,
        pos: 2 * call + 1,
    }
}
