//! The lists of such calls.
ghost use Rattle.std.specs.Prelude.{◌≡◌, ◌<◌, ◌≤◌, ◌^◌, ◌++◌, ◌∷◌, [], List, Option, All, length, OnOk};
ghost use Rattle.rma_base.specs.Limits.{fed_limit};
ghost use Rattle.rma_call.specs.Call.{Call, call_of, what_of};
ghost use Rattle.rma_epoch.specs.Table.{AreEpochs, at_what, on_window, sound_calls};
ghost use Rattle.rma_rules.specs.Spans.{publishing_of, visible_of};
ghost use Rattle.rma_window.specs.Windows.{Window};
ghost use Rattle.rma_visibility.specs.Visibility.{AreListed, AreOthersSame, number_at, where_so};
ghost use Rattle.rma_visibility.specs.inside.Listed.{with_some};

use crate::visible::{makes_visible, publishes};
use rma_base::{Memory, Rank};
use rma_call::{CallList, WhatRef, WindowCall};
use rma_epoch::{EpochTable, PartTable};
use rma_rules::Spans;
use rma_window::{WindowId, Windows};

/// Adds the sound calls of a rank, of which none is listed yet: those that publish its stores, and those that make updates
/// visible to it.
///
/// # Errors
///
/// `Memory`, and then nothing is said of what is listed.
pub fn list_calls(
    spans: &mut Spans,
    windows: &Windows,
    rank: Rank,
    calls: &CallList,
    table: &EpochTable,
) -> Result<(), Memory>
    requires few { length calls.now.calls ≤ fed_limit }
    requires table { AreEpochs windows.now calls.now table.now }
    requires none { AreListed windows.now rank [] spans.old }
    ensures own { OnOk result (AreListed windows.now rank (sound_calls windows.now calls.now.calls) spans.new) }
    ensures others { OnOk result (AreOthersSame rank spans.old spans.new) }
{
    for i in 0..table.sound() {
        let call = calls.get(i as usize);
        let number = calls.what_number(i as usize);
        let window = window_at(windows, table.parts(), number, call.what);
        list_call(spans, rank, window, i, call.what)?;
    }
    Ok(())
}

/// The window that calls are on, or create, whose number of what they do is this one.
fn window_at(
    windows: &Windows,
    parts: &PartTable,
    number: u32,
    what: WhatRef<'_>,
) -> Option<WindowId>
    requires { at_what parts.now number ≡ on_window windows.now (what_of what) }
    ensures { result ≡ number_at windows.now (what_of what.entry) }
{
    match what {
        WhatRef::Window(WindowCall::Create { window, .. }) => windows.find(window),
        _ => parts.window(number),
    }
}

/// Adds the next call of a rank, which has this number and is on this window, or creates it.
fn list_call(
    spans: &mut Spans,
    rank: Rank,
    window: Option<WindowId>,
    number: u32,
    what: WhatRef<'_>,
) -> Result<(), Memory>
    requires small { number < 2 ^ 31 }
    requires listed { (windows : List Window) × (calls : List Call) × (number ≡ length calls) × AreListed windows rank calls spans.old }
    ensures own { OnOk result ((windows : List Window) (calls : List Call) (call : Call) → call.what ≡ what_of what.entry → window ≡ number_at windows call.what → number ≡ length calls
        → AreListed windows rank calls spans.old → AreListed windows rank (calls ++ call ∷ []) spans.new) }
    ensures others { OnOk result (AreOthersSame rank spans.old spans.new) }
{
    add_publishing(spans, rank, where_so(publishes(what), window), number)?;
    add_visible(spans, rank, where_so(makes_visible(what), window), number)
}

/// A window, where something holds.
fn where_so(holds: bool, window: Option<WindowId>) -> Option<WindowId>
    ensures { result ≡ where_so holds window }
{
    if holds { window } else { None }
}

/// Adds a call that publishes to a window, if there is one.
fn add_publishing(
    spans: &mut Spans,
    rank: Rank,
    window: Option<WindowId>,
    number: u32,
) -> Result<(), Memory>
    requires small { number < 2 ^ 31 }
    requires after { (window : WindowId) → All (λ earlier. earlier < number) (publishing_of spans.old rank window) }
    ensures { OnOk result (spans.new ≡ record spans.old { publishing = with_some spans.old.publishing rank window number }) }
{
    match window {
        Some(window) => spans.add_publishing(rank, window, number),
        None => Ok(()),
    }
}

/// Adds a call that makes visible what came through a window, if there is one.
fn add_visible(
    spans: &mut Spans,
    rank: Rank,
    window: Option<WindowId>,
    number: u32,
) -> Result<(), Memory>
    requires small { number < 2 ^ 31 }
    requires after { (window : WindowId) → All (λ earlier. earlier < number) (visible_of spans.old rank window) }
    ensures { OnOk result (spans.new ≡ record spans.old { visible = with_some spans.old.visible rank window number }) }
{
    match window {
        Some(window) => spans.add_visible(rank, window, number),
        None => Ok(()),
    }
}
