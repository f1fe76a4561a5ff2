//! The rules by which accesses conflict.
ghost use Rattle.std.specs.Prelude.{◌≡◌};
ghost use Rattle.rma_rules.specs.Words.{rule_word};

/// Why two accesses to the memory of one rank may not be made at once (MPI 4.0, "One-Sided Communications").
#[derive(Clone, Copy, Debug, PartialEq, Eq, PartialOrd, Ord, Hash)]
pub enum Rule {
    /// They share a byte, and one of them writes it.
    Overlap,
    /// A store to the memory of a window of the separate model, beside an update through it.
    StoreInWindow,
    /// An update in the memory of another window, beside an update through that, one of the two of the separate model.
    OtherWindow,
    /// Two accumulates that do not agree on an element.
    Accumulate,
    /// A buffer of a call is in use.
    Buffer,
}

impl Rule {
    /// The word that the report has for this rule.
    pub fn word(&self) -> &'static str
        ensures { result.now ≡ rule_word self.now }
    {
        match self {
            Rule::Overlap => "overlap",
            Rule::StoreInWindow => "store_in_window",
            Rule::OtherWindow => "other_window",
            Rule::Accumulate => "accumulate",
            Rule::Buffer => "buffer",
        }
    }
}
