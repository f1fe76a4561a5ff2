//! What a trial asks for.

/// How many ranks make how many rounds, and where they begin.
#[derive(Clone, Copy, Debug, PartialEq, Eq)]
pub struct Trial {
    /// How many ranks there are.
    pub ranks: u32,
    /// How many rounds each rank makes.
    pub rounds: u32,
    /// The number of the first round, which says what is put to and what is loaded.
    pub seed: u32,
}
