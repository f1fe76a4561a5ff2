//! The lists of exposures between fences.
ghost use Rattle.std.specs.Prelude.{◌≡◌, List, Some, is_some, OnOk, if◌then◌else◌};
ghost use Rattle.std.specs.Option.{option_and_then};
ghost use Rattle.rma_call.specs.Call.{what_of};
ghost use Rattle.rma_epoch.specs.Table.{AreEpochs, at_what, on_window, sound_calls};
ghost use Rattle.rma_round.specs.Kind.{fenced};
ghost use Rattle.rma_window.specs.Windows.{Window};
ghost use Rattle.rma_window.specs.declared.window_id.WindowId.{WindowId};
ghost use Rattle.rma_fenced.specs.Fenced.{closed_by, exposure_between, exposure_with, fence_on, is_window, with_fenced};
ghost use Rattle.rma_fenced.specs.inside.Fences.{last_in, with_exposure};

use crate::phases::AccessedPhases;
use indexmap::IndexMap;
use rma_base::{LineNo, Memory, Rank};
use rma_call::{CallList, EpochCall, WhatRef};
use rma_epoch::{EpochTable, PartTable};
use rma_rules::{Exposure, ExposureKind, Spans};
use rma_window::WindowId;
use std::alloc::Global;

/// A fence of a rank.
#[derive(Clone, Copy, Debug, PartialEq, Eq)]
pub(crate) struct FenceCall {
    /// Its number among the calls of the rank.
    pub number: u32,
    /// Its line.
    pub line: LineNo,
}

/// Adds the exposures between the sound fences of a rank, by its calls and the phases of the run in which accesses stand.
///
/// # Errors
///
/// `Memory`, and then nothing is said of what is listed.
pub fn list_fenced(
    alloc: Global,
    spans: &mut Spans,
    phases: &AccessedPhases,
    rank: Rank,
    calls: &CallList,
    table: &EpochTable,
) -> Result<(), Memory>
    requires table { (windows : List Window) × AreEpochs windows calls.now table.now }
    ensures { OnOk result ((windows : List Window) → AreEpochs windows calls.now table.now
        → spans.new ≡ with_fenced spans.old phases.now windows rank (sound_calls windows calls.now.calls)) }
{
    if phases.is_empty() {
        return Ok(());
    }
    let mut fences = IndexMap::new(alloc);
    for i in 0..table.sound() {
        let call = calls.get(i as usize);
        let what = calls.what_number(i as usize);
        let window = fence_on(table.parts(), what, call.what);
        let fence = FenceCall {
            number: i,
            line: call.line,
        };
        list_call(spans, &mut fences, phases, rank, window, fence)?;
    }
    Ok(())
}

/// The window of a fence, where it is one of the run, by the number of what the call does.
fn fence_on(parts: &PartTable, number: u32, what: WhatRef<'_>) -> Option<WindowId>
    ensures { (windows : List Window) → at_what parts.now number ≡ on_window windows (what_of what.entry) → result ≡ fence_on windows (what_of what.entry) }
{
    if is_fence(what) {
        parts.window(number)
    } else {
        None
    }
}

/// Whether a call that does this is a fence.
fn is_fence(what: WhatRef<'_>) -> bool
    ensures { result ≡ is_some (fenced (what_of what.entry)) }
{
    match what {
        WhatRef::Epoch(call) => matches!(call, EpochCall::Fence { .. }),
        WhatRef::Window(_) => false,
        WhatRef::Frame(_) => false,
        WhatRef::Message(_) => false,
        WhatRef::Moving(_) => false,
        WhatRef::Rma(_) => false,
        WhatRef::Local(_) => false,
    }
}

/// Adds the exposure that the next call of a rank closes, where it is a fence on this window, and keeps it as the last fence there.
fn list_call(
    spans: &mut Spans,
    fences: &mut IndexMap<WindowId, FenceCall>,
    phases: &AccessedPhases,
    rank: Rank,
    window: Option<WindowId>,
    fence: FenceCall,
) -> Result<(), Memory>
    ensures spans { OnOk result (spans.new ≡ with_exposure spans.old (option_and_then (λ id. closed_by phases.now rank fence.number id (last_in fences.old.entries id)) window)) }
    ensures fences { OnOk result ((other : WindowId) → last_in fences.new.entries other ≡ (if is_window other window then Some fence else last_in fences.old.entries other)) }
{
    let Some(window) = window else {
        return Ok(());
    };
    let last = fences.insert(window, fence)?;
    list_closed(spans, phases, rank, window, last, fence.number)
}

/// Adds the exposure that a fence of this number closes, by the last fence on its window before it, if there is one.
fn list_closed(
    spans: &mut Spans,
    phases: &AccessedPhases,
    rank: Rank,
    window: WindowId,
    last: Option<FenceCall>,
    second: u32,
) -> Result<(), Memory>
    ensures { OnOk result (spans.new ≡ with_exposure spans.old (closed_by phases.now rank second window last)) }
{
    match last {
        Some(first) => list_between(spans, phases, rank, window, first, second),
        None => Ok(()),
    }
}

/// Adds the exposure between two fences, where an access stands in the phase.
fn list_between(
    spans: &mut Spans,
    phases: &AccessedPhases,
    rank: Rank,
    window: WindowId,
    first: FenceCall,
    second: u32,
) -> Result<(), Memory>
    ensures { OnOk result (spans.new ≡ with_exposure spans.old (exposure_between phases.now rank window first second)) }
{
    if phases.has(rank, first.number) {
        spans.add_exposure(exposure_with(rank, window, first, second))
    } else {
        Ok(())
    }
}

/// The exposure of a rank between two fences.
fn exposure_with(rank: Rank, window: WindowId, first: FenceCall, second: u32) -> Exposure
    ensures { result ≡ exposure_with rank window first second }
{
    Exposure {
        window,
        target: rank,
        kind: ExposureKind::Fenced,
        opener: first.number,
        close: Some(second),
        opened: first.line,
    }
}
