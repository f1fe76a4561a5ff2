//! The returns of a rank that receive something.
ghost use Rattle.std.specs.Prelude.{ℕ, ◌≡◌};
ghost use Rattle.std.specs.List.Sorted.{IsNonDecreasingBy};
ghost use Rattle.rma_clock.specs.declared.step.Step.{Step};
ghost use Rattle.rma_clock.specs.inside.Table.{IsLastStep};

/// A return that receives something.
#[derive(Clone, Copy)]
pub(crate) struct Step {
    /// Its position.
    pub(crate) pos: u32,
    /// The index of the row of the points before it.
    pub(crate) row: u32,
}

/// The last step at or before the position.
pub(crate) fn last_step(steps: &[Step], pos: u32) -> Option<Step>
    requires { IsNonDecreasingBy (λ (step : Step). step.pos) steps.now }
    ensures { IsLastStep steps.now pos result }
{
    let after = steps.partition_point(|step| step.pos <= pos);
    if after == 0 {
        None
    } else {
        Some(steps[after - 1])
    }
}
