//! The windows of a run, and their memory models.
ghost use Rattle.std.specs.Prelude.{◌≡◌, ◌<◌, ◌↔◌, ℕ, IsTrue, length};
ghost use Rattle.rma_window.specs.declared.window_id.WindowId.{WindowId};
ghost use Rattle.rma_rules.specs.Share.{IsSeparate};

use rma_base::WinModel;
use rma_window::{WindowId, Windows};
use std::marker::Model;

/// The windows of a run, of which it is known whether one has the separate memory model: then accesses that share no byte may conflict.
#[derive(Debug, Drop)]
pub struct ModelledWindows<'a> {
    /// The windows.
    windows: &'a Windows,
    /// Whether one has the separate model.
    has_separate: bool,
}

impl<'a> Model for ModelledWindows<'a> {
    ghost use Rattle.std.specs.Prelude.{◌≡◌, List, false};
    ghost use Rattle.rma_window.specs.Windows.{Window};
    ghost use Rattle.rma_window.specs.declared.window_id.WindowId.{WindowId};
    ghost use Rattle.rma_rules.specs.Share.{IsSeparate};

    ghost Value = { List Window };

    ghost view = { λ own. own.windows.now };

    ghost invariant = { λ own. own.has_separate ≡ false → (id : WindowId) → ¬ IsSeparate own.windows.now id };
}

impl<'a> ModelledWindows<'a> {
    /// These windows.
    pub fn of(windows: &'a Windows) -> ModelledWindows<'a>
        ensures { result ≡ windows.now }
    {
        ModelledWindows {
            windows,
            has_separate: has_separate(windows),
        }
    }

    /// The windows alone.
    pub fn windows(&self) -> &Windows
        ensures { result.now ≡ self.now }
    {
        self.windows
    }

    /// Whether all have the unified memory model, so that only accesses that share a byte conflict.
    pub fn are_unified(&self) -> bool
        ensures { IsTrue result → (id : WindowId) → ¬ IsSeparate self.now id }
    {
        !self.has_separate
    }
}

/// Whether a window has the separate memory model.
fn has_separate(windows: &Windows) -> bool
    ensures { (id : WindowId) → IsSeparate windows.now id → IsTrue result }
{
    let Ok(count) = u32::try_from(windows.len()) else {
        return true;
    };
    'windows: for number in 0..count {
        if is_separate(WindowId(number), windows) {
            return true;
        }
    }
    false
}

/// Whether the window has the separate memory model.
fn is_separate(window: WindowId, windows: &Windows) -> bool
    requires { window.0 < length windows.now }
    ensures { IsTrue result ↔ IsSeparate windows.now window }
{
    match windows.model(window) {
        WinModel::Separate => true,
        WinModel::Unified => false,
    }
}
