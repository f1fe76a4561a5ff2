//! What the definitions of this crate come to.
ghost use Rattle.std.specs.Prelude.{◌≡◌, ℕ, List, Some, slice_get};
ghost use Rattle.rma_base.specs.declared.rank.Rank.{Rank};
ghost use Rattle.rma_call.specs.Call.{Call};
ghost use Rattle.rma_epoch.specs.declared.epoch.Epoch.{Epoch};
ghost use Rattle.rma_side.specs.Sides.{AreSides, Asked};
ghost use Rattle.rma_window.specs.Windows.{Window};

/// An epoch has one side at a target, wherever that was asked for.
pub fn epochs_have_one_side_at_a_target()
    ensures { (calls : ℕ → List Call) (windows : List Window) (rank : Rank) (epochs : List Epoch) (sides others : List Asked)
        → AreSides calls windows rank epochs sides → AreSides calls windows rank epochs others
        → (i j : ℕ) (a b : Asked) → slice_get sides i ≡ Some a → slice_get others j ≡ Some b → a.epoch ≡ b.epoch → a.target ≡ b.target → a.side ≡ b.side }
{}
