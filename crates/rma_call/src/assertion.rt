//! Assertions on synchronisation calls (MPI 4.0, "One-Sided Communications").
ghost use Rattle.std.specs.Prelude.{◌≡◌, false};
ghost use Rattle.rma_call.specs.Assertion.{assertion_word, asserts, with_assertion, no_assertions};

/// An assertion that a program makes to a synchronisation call.
#[derive(Clone, Copy, Debug, PartialEq, Eq)]
pub enum Assertion {
    /// The matching calls are made: `MPI_MODE_NOCHECK`.
    Nocheck,
    /// The fence completes no RMA calls: `MPI_MODE_NOPRECEDE`.
    Noprecede,
    /// The fence begins no RMA calls: `MPI_MODE_NOSUCCEED`.
    Nosucceed,
    /// The local part was not stored to since the last synchronisation: `MPI_MODE_NOSTORE`.
    Nostore,
    /// The local part is not put to until the next synchronisation: `MPI_MODE_NOPUT`.
    Noput,
}

/// The assertions of a call.
#[derive(Clone, Copy, Debug, PartialEq, Eq)]
pub struct Assertions {
    pub nocheck: bool,
    pub noprecede: bool,
    pub nosucceed: bool,
    pub nostore: bool,
    pub noput: bool,
}

impl Assertion {
    /// The word of the log.
    pub fn word(&self) -> &'static str
        ensures { result.now ≡ assertion_word self.now }
    {
        match self {
            Assertion::Nocheck => "nocheck",
            Assertion::Noprecede => "noprecede",
            Assertion::Nosucceed => "nosucceed",
            Assertion::Nostore => "nostore",
            Assertion::Noput => "noput",
        }
    }
}

impl Assertions {
    /// No assertion.
    pub fn none() -> Assertions
        ensures { result ≡ no_assertions }
    {
        Assertions {
            nocheck: false,
            noprecede: false,
            nosucceed: false,
            nostore: false,
            noput: false,
        }
    }

    /// Whether this is one of the assertions.
    pub fn has(&self, assertion: Assertion) -> bool
        ensures { result ≡ asserts self.now assertion }
    {
        match assertion {
            Assertion::Nocheck => self.nocheck,
            Assertion::Noprecede => self.noprecede,
            Assertion::Nosucceed => self.nosucceed,
            Assertion::Nostore => self.nostore,
            Assertion::Noput => self.noput,
        }
    }

    /// These assertions and one more.
    pub fn with(self, assertion: Assertion) -> Assertions
        ensures { result ≡ with_assertion self assertion }
    {
        let mut more = self;
        match assertion {
            Assertion::Nocheck => more.nocheck = true,
            Assertion::Noprecede => more.noprecede = true,
            Assertion::Nosucceed => more.nosucceed = true,
            Assertion::Nostore => more.nostore = true,
            Assertion::Noput => more.noput = true,
        }
        more
    }
}
