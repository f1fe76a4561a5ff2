//! The names of accesses.
ghost use Rattle.std.specs.Prelude.{◌≡◌};
ghost use Rattle.rma_rules.specs.Words.{role_word};

use rma_base::{LineNo, Rank};

/// What an access is of its call.
#[derive(Clone, Copy, Debug, PartialEq, Eq, PartialOrd, Ord, Hash)]
pub enum Role {
    /// The load or store of a rank itself.
    Local,
    /// What a call does at its target.
    Target,
    /// The buffer that a call sends, or into which it gets.
    Origin,
    /// The buffer into which is read what stood at the target before.
    Result,
    /// The buffer with which the target is compared.
    Compare,
}

impl Role {
    /// The word that the report has for this role.
    pub fn word(&self) -> &'static str
        ensures { result.now ≡ role_word self.now }
    {
        match self {
            Role::Local => "local",
            Role::Target => "target",
            Role::Origin => "origin",
            Role::Result => "result",
            Role::Compare => "compare",
        }
    }
}

/// An access of a run: the line of its call, and what it is of it. Names are ordered by rank, then by line, then by role.
#[derive(Clone, Copy, Debug, PartialEq, Eq, PartialOrd, Ord, Hash)]
pub struct AccessName {
    /// The rank whose log has the line.
    pub rank: Rank,
    /// The line of the call.
    pub line: LineNo,
    /// What the access is of the call.
    pub role: Role,
}
