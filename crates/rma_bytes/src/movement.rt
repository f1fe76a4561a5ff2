//! A set moved by a distance.
ghost use Rattle.std.specs.Prelude.{◌≡◌, map};
ghost use Rattle.std.specs.List.{All};
ghost use Rattle.rma_bytes.specs.Runs.{IsInBounds, moved};

use crate::run::Run;

/// Moves each run.
pub(crate) fn shift(runs: &mut [Run], by: i64)
    requires { All IsInBounds (map (moved by) runs.old) }
    ensures { runs.new ≡ map (moved by) runs.old }
{
    'each: for run in runs.iter_mut() {
        run.start += by;
    }
}
