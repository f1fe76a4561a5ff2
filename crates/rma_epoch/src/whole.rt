//! The epochs of a whole log, and its first epoch fault.
ghost use Rattle.std.specs.Prelude.{◌≡◌, [], IfOk, OnOk, length, true, Some, None, ℕ, slice_get, List, if◌then◌else◌};
ghost use Rattle.rma_base.specs.declared.epoch_reason.EpochReason.TheVariants.{EpochLeftOpen};
ghost use Rattle.rma_call.specs.Call.{Call};
ghost use Rattle.rma_window.specs.Windows.{Window};
ghost use Rattle.rma_open.specs.Calls.{window_on};
ghost use Rattle.rma_epoch.specs.Fault.{fault_from};
ghost use Rattle.rma_epoch.specs.Table.{AreEpochs, sound_from};
ghost use Rattle.rma_epoch.specs.inside.Live.{HasEpochs, Represents};
ghost use Rattle.rma_epoch.specs.inside.Windows.{ArePlaces, names_in};

use crate::fault::EpochFault;
use crate::live::LiveEpochs;
use crate::open_windows::{OpenWindows, Place};
use crate::parts::{PartTable, Parts};
use crate::placements::Placements;
use crate::table::{EpochOutcome, EpochTable};
use rma_base::{EpochReason, LineNo, Memory};
use rma_call::{CallList, Group};
use rma_window::Windows;
use std::alloc::Global;

/// The epochs of the sound calls of a rank whose log ends at this line: those before its first call that stands in no epoch
/// that allows it, or all of them. Beside them that call as its fault, or the end of its log where an epoch is left open.
///
/// # Errors
///
/// `Memory` where there is none left, also where there are 2^32 calls or more.
pub fn place_calls(
    alloc: Global,
    calls: &CallList,
    end: LineNo,
    windows: &Windows,
) -> Result<EpochOutcome, Memory>
    ensures table { IfOk result (λ outcome. AreEpochs windows.now calls.now outcome.table) }
    ensures fault { IfOk result (λ outcome. outcome.fault ≡ fault_from windows.now [] calls.now.calls end) }
{
    if are_on_no_window(calls) {
        return place_none(alloc, calls);
    }
    let mut parts = Parts::new(alloc);
    let mut opened = OpenWindows::new(alloc);
    let places = opened.places(windows, &mut parts, calls)?;
    let mut live = LiveEpochs::on(alloc, opened);
    let fault = take_sound(&mut live, windows, calls, places.as_slice(), end)?;
    let table = live.into_table(PartTable::new(parts));
    Ok(EpochOutcome { table, fault })
}

/// The same of calls of which none is on a window: all are sound, and open nothing.
fn place_none(alloc: Global, calls: &CallList) -> Result<EpochOutcome, Memory>
    requires { (i : ℕ) (call : Call) → slice_get calls.now.calls i ≡ Some call → window_on call.what ≡ None }
    ensures table { IfOk result (λ outcome. (windows : List Window) → AreEpochs windows calls.now outcome.table) }
    ensures fault { IfOk result (λ outcome. outcome.fault ≡ None) }
{
    let parts = PartTable::new(Parts::new(alloc));
    let table = EpochTable::new(count(calls)?, Placements::new(alloc), parts);
    Ok(EpochOutcome { table, fault: None })
}

/// How many calls there are, if a number tells.
fn count(calls: &CallList) -> Result<u32, Memory>
    ensures { IfOk result (λ count. count ≡ length calls.now.calls) }
{
    match u32::try_from(calls.len()) {
        Ok(count) => Ok(count),
        Err(_) => Err(Memory),
    }
}

/// The fault of the line that ends a log, where an epoch is left open.
fn fault_at_end(is_unclosed: bool, end: LineNo) -> Option<EpochFault>
    ensures { result ≡ (if is_unclosed then Some (record { line = end; reason = EpochLeftOpen }) else None) }
{
    if !is_unclosed {
        return None;
    }
    Some(EpochFault {
        line: end,
        reason: EpochReason::EpochLeftOpen,
    })
}

/// Whether no call is on a window, as far as the groups of the calls tell.
fn are_on_no_window(calls: &CallList) -> bool
    ensures { result ≡ true → (i : ℕ) (call : Call) → slice_get calls.now.calls i ≡ Some call → window_on call.what ≡ None }
{
    if calls.has(Group::Epoch) || calls.has(Group::Rma) {
        return false;
    }
    !calls.has(Group::Window)
}

/// Takes the sound calls of a rank, none of which is taken yet, and answers the first fault among its calls and the end of its
/// log. These are the places of their windows, by the numbers of what calls do.
fn take_sound(
    live: &mut LiveEpochs,
    windows: &Windows,
    calls: &CallList,
    places: &[Option<Place>],
    end: LineNo,
) -> Result<Option<EpochFault>, Memory>
    requires nothing { Represents [] live.old }
    requires no_epochs { HasEpochs windows.now [] live.old }
    requires each { length places.now ≡ length calls.now.whats }
    requires places { ArePlaces windows.now (names_in live.old.windows) calls.now.whats places.now }
    ensures fault { IfOk result (λ fault. fault ≡ fault_from windows.now [] calls.now.calls end) }
    ensures taken { OnOk result (Represents (sound_from windows.now [] calls.now.calls) live.new) }
    ensures epochs { OnOk result (HasEpochs windows.now (sound_from windows.now [] calls.now.calls) live.new) }
{
    for i in 0..calls.len() {
        let call = calls.get(i);
        let place = places[calls.what_number(i) as usize];
        if let Some(reason) = live.take_at(windows, place, call)?.reason {
            let line = call.line;
            return Ok(Some(EpochFault { line, reason }));
        }
    }
    Ok(fault_at_end(live.is_unclosed(), end))
}
