//! What the definitions of this crate come to.
ghost use Rattle.rma_cells.specs.Cells.{CellsAreUnique};

/// What stands on the bytes gives the list of all cells, and so their number.
pub fn cells_are_unique()
    ensures { CellsAreUnique }
{}
