//! Between which addresses the bytes of a layout lie.
ghost use Rattle.std.specs.Prelude.{◌≡◌};
ghost use Rattle.rma_bytes.specs.Runs.{IsCanonical, IsInBounds, end_of};
ghost use Rattle.rma_layout.specs.inside.Known.{AreEnds};

use rma_bytes::{Layout, Run};

/// Where the first run of a layout starts, and where the last one ends.
#[derive(Clone, Copy, Debug)]
pub(crate) struct Ends {
    /// Where the first run starts.
    pub(crate) start: i64,
    /// Where the last run ends.
    pub(crate) end: i64,
}

/// The ends of the bytes of a layout, where it has one.
pub(crate) fn ends_of(layout: &Layout) -> Option<Ends>
    requires canonical { IsCanonical layout.now.runs }
    ensures { AreEnds layout.now.runs result }
{
    let runs = layout.len();
    if runs == 0 {
        return None;
    }
    Some(Ends {
        start: layout.get(0).start,
        end: end_of(layout.get(runs - 1)),
    })
}

/// Where a run ends.
fn end_of(run: Run) -> i64
    requires { IsInBounds run }
    ensures { result ≡ end_of run }
{
    run.start + run.len as i64
}
