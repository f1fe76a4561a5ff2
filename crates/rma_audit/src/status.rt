//! What the top call answers.

/// The answer of one run of the program. The exit numbers are 0 to 6 in the order of the variants.
#[derive(Clone, Copy, Debug, PartialEq, Eq)]
pub enum Status {
    /// All logs were read, there is no finding, and the report says so.
    Clean,
    /// All logs were read, and the report lists the findings.
    Findings,
    /// The words are no command: nothing was opened, read or written.
    Usage,
    /// A log could not be opened or read. `recorded` is the number of races found in the bytes taken.
    ReadFault { recorded: u64 },
    /// The report could not be written whole.
    WriteFault,
    /// The logs have more bytes than are allowed; reading stopped after `bytes`.
    TooLarge { bytes: u64 },
    /// Memory ran out before the first byte was written.
    Memory,
}
