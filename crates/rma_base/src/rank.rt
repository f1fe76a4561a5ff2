//! Ranks of the world.

/// A process of the run, by its rank in `MPI_COMM_WORLD` (MPI 4.0, "Groups, Contexts, Communicators, and Caching").
#[derive(Clone, Copy, Debug, PartialEq, Eq, PartialOrd, Ord, Hash)]
pub struct Rank(pub u32);
