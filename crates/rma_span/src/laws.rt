//! What the definitions of this crate come to.
ghost use Rattle.std.specs.Prelude.{◌≡◌, ℕ, List, Some, slice_get};
ghost use Rattle.std.specs.List.{flat_map};
ghost use Rattle.rma_call.specs.Call.{Call};
ghost use Rattle.rma_epoch.specs.Table.{sound_calls};
ghost use Rattle.rma_kept.specs.Kept.{AreKept};
ghost use Rattle.rma_touch.specs.Touches.{HasBuffers};
ghost use Rattle.rma_span.specs.Span.{AreFreedLater, Origin, accesses_at, accesses_of, spanned_calls};

/// The accesses of a rank are those that its calls make which access memory, each by its number.
pub fn accesses_are_those_of_spanned_calls()
    ensures { (own : Origin) → accesses_of own ≡ flat_map (accesses_at own) (spanned_calls own) }
{}

/// In a good log the use of a buffer is done by no call before its own.
pub fn kept_calls_are_freed_later()
    ensures { (rank logs : ℕ) (calls : List Call) (own : Origin) → AreKept rank logs calls → own.sound ≡ sound_calls own.windows calls → AreFreedLater own }
{}

/// In a good log buffers have canonical runs.
pub fn kept_calls_have_buffers()
    ensures { (rank logs place : ℕ) (calls : List Call) (call : Call) → AreKept rank logs calls → slice_get calls place ≡ Some call → HasBuffers call.what }
{}
