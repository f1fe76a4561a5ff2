//! The attaches and detaches of a run.
ghost use Rattle.std.specs.Prelude.{◌≡◌, ◌≤◌, ◌++◌, length, IfOk, OnOk};
ghost use Rattle.rma_base.specs.Limits.{fed_limit};
ghost use Rattle.rma_call.specs.Call.{what_of};
ghost use Rattle.rma_run.specs.Run.{IsRun, by_number};
ghost use Rattle.rma_dyn.specs.Change.{changes, changes_by, changes_of, changes_on};

use crate::change::Change;
use rma_base::{LineNo, Memory, Name, Rank};
use rma_call::{RankCalls, WhatRef, WindowCall};
use rma_window::Windows;
use std::alloc::Global;

/// The attaches and detaches of a run with these windows, by rank and then by line.
///
/// # Errors
///
/// `Memory` where there is none left.
pub(crate) fn changes_of(
    alloc: Global,
    ranks: &[RankCalls],
    windows: &Windows,
) -> Result<Vec<Change>, Memory>
    requires { IsRun ranks.now }
    ensures { IfOk result (λ list. list.items ≡ changes windows.now ranks.now) }
{
    let mut list = Vec::new(alloc);
    for own in ranks {
        add_rank(&mut list, own, windows)?;
    }
    Ok(list)
}

/// Adds those of one rank.
fn add_rank(list: &mut Vec<Change>, own: &RankCalls, windows: &Windows) -> Result<(), Memory>
    requires { length own.now.calls ≤ fed_limit }
    ensures { OnOk result (list.new.items ≡ list.old.items ++ by_number (changes_of windows.now own.now.rank) 0 own.now.calls) }
{
    let calls = own.calls();
    for i in 0..calls.len() {
        let call = calls.get(i);
        add_call(list, windows, own.rank(), i as u32, call.line, call.what)?;
    }
    Ok(())
}

/// Adds what the call of a number is, if it attaches or detaches memory.
fn add_call(
    list: &mut Vec<Change>,
    windows: &Windows,
    rank: Rank,
    number: u32,
    line: LineNo,
    what: WhatRef<'_>,
) -> Result<(), Memory>
    ensures { OnOk result (list.new.items ≡ list.old.items ++ changes_by windows.now rank number line (what_of what.entry)) }
{
    match what {
        WhatRef::Window(
            WindowCall::Attach {
                window,
                address,
                size,
            },
        ) => add_change(
            list,
            windows,
            rank,
            number,
            line,
            window,
            *address,
            Some(*size),
        ),
        WhatRef::Window(WindowCall::Detach { window, address }) => {
            add_change(list, windows, rank, number, line, window, *address, None)
        }
        _ => Ok(()),
    }
}

/// Adds an attach of so many bytes, or a detach, if there is a window of the name.
fn add_change(
    list: &mut Vec<Change>,
    windows: &Windows,
    rank: Rank,
    number: u32,
    line: LineNo,
    window: &Name,
    address: u64,
    size: Option<u64>,
) -> Result<(), Memory>
    ensures { OnOk result (list.new.items ≡ list.old.items ++ changes_on windows.now rank number line window.now address size) }
{
    if let Some(window) = windows.find(window) {
        list.push(Change {
            rank,
            window,
            address,
            call: number,
            line,
            size,
        })?;
    }
    Ok(())
}
