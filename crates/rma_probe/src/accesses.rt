//! The accesses of a row.
ghost use Rattle.std.specs.Prelude.{◌<◌, List, length};
ghost use Rattle.rma_call.specs.Call.{RankCalls};
ghost use Rattle.rma_span.specs.Span.{origin_of, spanned_calls};
ghost use Rattle.rma_accesses.specs.inside.Kept.{AreAccessesOf, IsAccessesOf};

use crate::text::{print_name, print_point, print_window};
use rma_accesses::{RankAccesses, RunAccesses};
use rma_base::Point;
use rma_rules::{Access, Kind, LockKey, Operation, Role};
use rma_table::Failure;
use rma_window::Windows;
use std::io;

/// The roles in which a call may make an access, in their order.
pub const ROLES: [Role; 5] = [
    Role::Local,
    Role::Target,
    Role::Origin,
    Role::Result,
    Role::Compare,
];

/// Prints the accesses of a run, by rank.
pub fn print_ranks(
    rt: HostRuntime,
    windows: &Windows,
    accesses: &RunAccesses<'_, '_>,
) -> Result<(), Failure>
    requires { (ranks : List RankCalls) × AreAccessesOf ranks accesses.now }
{
    for own in accesses.ranks.as_slice() {
        print_rank(rt, windows, own)?;
    }
    Ok(())
}

/// Prints the accesses of a rank, by line.
fn print_rank(rt: HostRuntime, windows: &Windows, own: &RankAccesses<'_, '_>) -> Result<(), Failure>
    requires { (ranks : List RankCalls) × IsAccessesOf ranks own.now }
{
    for index in 0..own.len() {
        print_call(rt, windows, own, index)?;
    }
    Ok(())
}

/// Prints the accesses of the call at an index among those that access memory, by role.
fn print_call(
    rt: HostRuntime,
    windows: &Windows,
    own: &RankAccesses<'_, '_>,
    index: usize,
) -> Result<(), Failure>
    requires { (ranks : List RankCalls) × IsAccessesOf ranks own.now × index < length (spanned_calls (origin_of ranks own.now.own.now)) }
{
    for role in ROLES {
        if let Some(access) = own.access(index, role) {
            print_access(rt, windows, &access)?;
        }
    }
    Ok(())
}

/// Prints an access.
fn print_access(rt: HostRuntime, windows: &Windows, access: &Access<'_>) -> Result<(), Failure> {
    print!(rt; "= ")?;
    print_name(rt, access)?;
    print_kind(rt, access.kind)?;
    print_window(rt, windows, access)?;
    print_bytes(rt, access)?;
    print_starts(rt, access)?;
    print_done(rt, access.done)?;
    print_locks(rt, access.locks)?;
    println!(rt; "")?;
    Ok(())
}

/// Prints what an access does.
fn print_kind(rt: HostRuntime, kind: Kind) -> io::Result<()> {
    match kind {
        Kind::Load => print!(rt; " load"),
        Kind::Store => print!(rt; " store"),
        Kind::Poll => print!(rt; " poll"),
        Kind::BufferRead => print!(rt; " read"),
        Kind::BufferWrite => print!(rt; " write"),
        Kind::Get => print!(rt; " get"),
        Kind::Put => print!(rt; " put"),
        Kind::Accumulate(Operation::Combine(op)) => print!(rt; " acc {}", op.word()),
        Kind::Accumulate(Operation::CompareAndSwap) => print!(rt; " cas"),
    }
}

/// Prints whose memory an access touches, and which bytes.
fn print_bytes(rt: HostRuntime, access: &Access<'_>) -> io::Result<()> {
    print!(rt; " on {} bytes", access.memory.0)?;
    for i in 0..access.bytes.len() {
        let run = access.bytes.get(i);
        print!(rt; " {}+{}", run.start, run.len)?;
    }
    Ok(())
}

/// Prints the points at which an access starts.
fn print_starts(rt: HostRuntime, access: &Access<'_>) -> io::Result<()> {
    print!(rt; " starts")?;
    print_point(
        rt,
        Point {
            rank: access.name.rank,
            pos: access.call.saturating_mul(2),
        },
    )?;
    match access.opening {
        Some(opening) => print_point(rt, opening),
        None => Ok(()),
    }
}

/// Prints the point at which an access is done.
fn print_done(rt: HostRuntime, done: Option<Point>) -> io::Result<()> {
    print!(rt; " done")?;
    match done {
        Some(point) => print_point(rt, point),
        None => print!(rt; " never"),
    }
}

/// Prints the lock epochs in which an access lies, each by the rank that locks and the number of its call.
fn print_locks(rt: HostRuntime, locks: &[LockKey]) -> io::Result<()> {
    for lock in locks {
        let how = if lock.exclusive { "excl" } else { "shared" };
        print!(rt; " {how} ({},{})", lock.rank.0, lock.opener)?;
    }
    Ok(())
}
