//! What a window's creation says of its memory (MPI 4.0, "One-Sided Communications").
ghost use Rattle.std.specs.Prelude.{◌≡◌};
ghost use Rattle.rma_base.specs.Window.{model_word, ops_word};

/// The memory model of a window.
#[derive(Clone, Copy, Debug, PartialEq, Eq)]
pub enum WinModel {
    /// The public and the private copy are apart.
    Separate,
    /// They are one.
    Unified,
}

impl WinModel {
    /// The word of the log.
    pub fn word(&self) -> &'static str
        ensures { result.now ≡ model_word self.now }
    {
        match self {
            WinModel::Separate => "separate",
            WinModel::Unified => "unified",
        }
    }
}

/// Which accumulate operations may meet at one place of a window, as its info key `accumulate_ops` says.
#[derive(Clone, Copy, Debug, PartialEq, Eq)]
pub enum AccOps {
    /// One operation.
    SameOp,
    /// One operation, and `MPI_NO_OP` beside it.
    SameOpNoOp,
}

impl AccOps {
    /// The word of the log.
    pub fn word(&self) -> &'static str
        ensures { result.now ≡ ops_word self.now }
    {
        match self {
            AccOps::SameOp => "same_op",
            AccOps::SameOpNoOp => "same_op_no_op",
        }
    }
}
