//! What the lines of datatypes state (MPI 4.0, "Datatypes").
use rma_base::Name;
use rma_datatype::Make;

/// What happens to a datatype.
#[derive(Debug, Drop)]
pub enum TypeLine {
    /// A derived datatype is made: `type contiguous N COUNT OLD` and the like.
    Make {
        /// Its name.
        name: Name,
        /// The constructor with its arguments.
        make: Make,
    },
    /// A datatype is committed: `type commit N`.
    Commit {
        /// Its name.
        name: Name,
    },
    /// A datatype is freed: `type free N`.
    Free {
        /// Its name.
        name: Name,
    },
}
