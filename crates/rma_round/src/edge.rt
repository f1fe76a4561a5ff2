//! What calls that move data from a root or to it order.
ghost use Rattle.std.specs.Prelude.{◌≡◌, ◌<◌, ◌^◌, option_map};
ghost use Rattle.rma_call.specs.Call.{what_of};
ghost use Rattle.rma_link.specs.Point.{entry, return_of};
ghost use Rattle.rma_round.specs.Edge.{movement, rooted_of, edge_with};

use rma_base::{Name, Point, Rank};
use rma_call::{MovingCall, WhatRef};
use rma_link::{Edge, Member};

/// A movement of data from a root to all, or from all to the root.
#[derive(Clone, Copy)]
pub struct Rooted<'a> {
    /// Whether it goes to the root.
    pub to_root: bool,
    /// The root.
    pub root: Rank,
    /// The communicator.
    pub comm: &'a Name,
}

/// The movement that a call is part of.
pub fn rooted_of<'a>(what: WhatRef<'a>) -> Option<Rooted<'a>>
    ensures { option_map (λ at. record { to_root = at.to_root; root = at.root; comm = at.comm.now }) result ≡ rooted_of (what_of what.entry) }
{
    match what {
        WhatRef::Moving(
            MovingCall::Bcast { root, bytes, comm } | MovingCall::Scatter { root, bytes, comm },
        ) => movement(false, *root, *bytes, comm),
        WhatRef::Moving(
            MovingCall::Gather { root, bytes, comm } | MovingCall::Reduce { root, bytes, comm },
        ) => movement(true, *root, *bytes, comm),
        _ => None,
    }
}

/// A movement, where any bytes are moved.
fn movement<'a>(to_root: bool, root: Rank, bytes: u64, comm: &'a Name) -> Option<Rooted<'a>>
    ensures { option_map (λ at. record { to_root = at.to_root; root = at.root; comm = at.comm.now }) result ≡ movement to_root root bytes comm.now }
{
    if bytes == 0 {
        return None;
    }
    Some(Rooted {
        to_root,
        root,
        comm,
    })
}

/// The edge between the call of this number of a rank and the root's call.
pub(crate) fn edge_with(rank: Rank, number: u32, at: Rooted<'_>, call: u32) -> Edge
    requires number { number < 2 ^ 31 }
    requires call { call < 2 ^ 31 }
    ensures { result ≡ edge_with rank number (record { to_root = at.entry.to_root; root = at.entry.root; comm = at.entry.comm.now }) call }
{
    let own = Member { rank, call: number };
    let root = Member {
        rank: at.root,
        call,
    };
    if at.to_root {
        edge_between(own, root)
    } else {
        edge_between(root, own)
    }
}

/// The edge from the entry of one call to the return of another.
fn edge_between(from: Member, to: Member) -> Edge
    requires from { from.call < 2 ^ 31 }
    requires to { to.call < 2 ^ 31 }
    ensures { result ≡ record { from = entry from.rank from.call; to = return_of to.rank to.call } }
{
    Edge {
        from: from.entry(),
        to: Point {
            rank: to.rank,
            pos: 2 * to.call + 1,
        },
    }
}
