//! What the definitions of this crate come to.
ghost use Rattle.std.specs.Prelude.{◌≡◌, ℕ, List, All, Contains, Some, slice_get};
ghost use Rattle.rma_base.specs.declared.point.Point.{Point};
ghost use Rattle.rma_call.specs.Call.{RankCalls};
ghost use Rattle.rma_clock.specs.Reached.{IsReached, points_of};
ghost use Rattle.rma_run.specs.Run.{IsRun, lens_of};
ghost use Rattle.rma_window.specs.declared.window_id.WindowId.{WindowId};
ghost use Rattle.rma_window.specs.Creation.{creations};
ghost use Rattle.rma_window.specs.Windows.{windows_by};
ghost use Rattle.rma_rules.specs.Access.{Access, IsOnWindowOf};
ghost use Rattle.rma_rules.specs.Before.{AreReached};
ghost use Rattle.rma_rules.specs.Spans.{Spans, publishing_of, visible_of};
ghost use Rattle.rma_span.specs.Span.{Origin, accesses, accesses_of};
ghost use Rattle.rma_points.specs.Points.{AreRunCalls, IsCallOfRun};

/// The window of an access of a rank is one of the windows of the run.
pub fn accesses_are_on_windows()
    ensures { (own : Origin) (a : Access) → Contains (accesses_of own) a → IsOnWindowOf own.windows a }
{}

/// The memory that an access touches is that of a rank of the run.
pub fn memory_is_of_the_run()
    ensures { (ranks : List RankCalls) (a : Access) → IsRun ranks → Contains (accesses ranks) a → (own : RankCalls) × (slice_get ranks a.memory.0 ≡ Some own) }
{}

/// An access starts, and is done, at points of the run.
pub fn accesses_start_and_are_done_at_points_of_the_run()
    ensures done { (ranks : List RankCalls) (a : Access) (p : Point) → IsRun ranks → Contains (accesses ranks) a → a.done ≡ Some p → IsReached (points_of (lens_of ranks)) p }
    ensures starts { (ranks : List RankCalls) (a : Access) → IsRun ranks → Contains (accesses ranks) a → All (IsReached (points_of (lens_of ranks))) a.starts }
{}

/// The calls that are listed for a rank of the run are calls of it.
pub fn listed_calls_are_of_the_run()
    ensures publishing { (ranks : List RankCalls) (spans : Spans) (own : RankCalls) (window : WindowId) (v : ℕ)
        → IsRun ranks → AreRunCalls ranks spans → Contains ranks own → Contains (publishing_of spans own.rank window) v → IsCallOfRun ranks own.rank v }
    ensures visible { (ranks : List RankCalls) (spans : Spans) (own : RankCalls) (window : WindowId) (v : ℕ)
        → IsRun ranks → AreRunCalls ranks spans → Contains ranks own → Contains (visible_of spans own.rank window) v → IsCallOfRun ranks own.rank v }
{}

/// Two accesses of a run may be asked for their order, with the calls that are listed for its ranks, and for their conflict.
pub fn accesses_may_be_asked()
    ensures { (ranks : List RankCalls) (spans : Spans) (a b : Access) → IsRun ranks → AreRunCalls ranks spans → Contains (accesses ranks) a → Contains (accesses ranks) b
        → AreReached (points_of (lens_of ranks)) spans a b × IsOnWindowOf (windows_by (creations ranks)) a × IsOnWindowOf (windows_by (creations ranks)) b }
{}
