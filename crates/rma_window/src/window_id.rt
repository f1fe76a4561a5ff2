//! The numbers of windows.

/// A window of a table, by its number: from 0, in the order in which they were first created.
#[derive(Clone, Copy, Debug, PartialEq, Eq, PartialOrd, Ord, Hash)]
pub struct WindowId(pub u32);
