//! The versions of the format of logs.
ghost use Rattle.std.specs.Prelude.{◌≡◌, ◌≤◌};
ghost use Rattle.rma_base.specs.Version.{version_word, ranks_of};

/// A version of the format of logs. Each log of a run may have its own.
#[derive(Clone, Copy, Debug, PartialEq, Eq)]
pub enum Version {
    /// Runs of up to 64 ranks.
    One,
    /// Runs of up to 1,024 ranks, assertions, data-moving collectives, dynamic windows and polls.
    Two,
}

impl Version {
    /// The word of the log.
    pub fn word(&self) -> &'static str
        ensures { result.now ≡ version_word self.now }
    {
        match self {
            Version::One => "1",
            Version::Two => "2",
        }
    }

    /// The most ranks of a run whose logs have this version.
    pub fn ranks(self) -> u32
        ensures ranks { result ≡ ranks_of self }
        ensures some { 1 ≤ result }
        ensures few { result ≤ 1024 }
    {
        match self {
            Version::One => 64,
            Version::Two => 1_024,
        }
    }
}
