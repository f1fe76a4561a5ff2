//! What the sound calls of a rank complete.
ghost use Rattle.std.specs.Prelude.{◌≡◌, ◌≤◌, List, length, take, IfOk};
ghost use Rattle.rma_completion.specs.inside.Kept.{Represents};
ghost use Rattle.rma_epoch.specs.Table.{AreParts};
ghost use Rattle.rma_window.specs.Windows.{Window};

use rma_base::Memory;
use rma_call::CallList;
use rma_completion::Completions;
use rma_epoch::PartTable;
use std::alloc::Global;

/// What the first calls of a rank complete, so many.
pub(crate) fn completions_of(
    alloc: Global,
    calls: &CallList,
    parts: &PartTable,
    sound: u32,
) -> Result<Completions, Memory>
    requires { sound ≤ length calls.now.calls }
    ensures { IfOk result (λ own. (windows : List Window) → AreParts windows calls.now parts.now → Represents windows (take sound calls.now.calls) own) }
{
    let mut own = Completions::new(alloc);
    for number in 0..sound {
        let call = calls.get(number as usize);
        let window = parts.window(calls.what_number(number as usize));
        own.take(window, number, call)?;
    }
    Ok(own)
}
