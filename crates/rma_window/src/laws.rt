//! What the definitions of this crate come to.
ghost use Rattle.std.specs.Prelude.{◌≡◌, ◌<◌, ℕ, List, length, find, Some, option_map};
ghost use Rattle.std.specs.Option.{option_and_then};
ghost use Rattle.rma_base.specs.declared.rank.Rank.{Rank};
ghost use Rattle.rma_window.specs.declared.part.Part.{Part};
ghost use Rattle.rma_window.specs.declared.window_id.WindowId.{WindowId};
ghost use Rattle.rma_window.specs.Creation.{Creation};
ghost use Rattle.rma_window.specs.Windows.{Window, attributes_of, is_named, number_of, part_of, window_of, with_creation};

/// Where one more creation comes, each window keeps its number and what it was first created with, and each rank its part.
pub fn creations_keep_what_is_there()
    ensures windows { (windows : List Window) (c : Creation) (id : WindowId) → id.0 < length windows → option_map attributes_of (window_of (with_creation windows c) id) ≡ option_map attributes_of (window_of windows id) }
    ensures parts { (windows : List Window) (c : Creation) (id : WindowId) (rank : Rank) (part : Part) → part_of windows id rank ≡ Some part → part_of (with_creation windows c) id rank ≡ Some part }
{}

/// The window of a name is that of its number.
pub fn names_have_their_numbers()
    ensures { (windows : List Window) (name : List ℕ) → option_and_then (window_of windows) (number_of windows name) ≡ find (is_named name) windows }
{}
