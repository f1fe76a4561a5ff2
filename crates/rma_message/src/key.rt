//! What messages match by.
ghost use Rattle.std.specs.Prelude.{◌≡◌, IfOk};

use rma_base::{Memory, Name, Rank};

/// What a send and a receive have in common where they match.
#[derive(Debug, Drop, PartialEq, Eq, Hash)]
pub struct Key {
    /// The rank that sends.
    pub from: Rank,
    /// The rank that receives.
    pub to: Rank,
    /// The communicator.
    pub comm: Name,
    /// The tag.
    pub tag: u32,
}

impl Key {
    /// The same key.
    pub(crate) fn copy(&self) -> Result<Key, Memory>
        ensures { IfOk result (λ key. key ≡ self.now) }
    {
        let comm = self.comm.copy()?;
        Ok(Key {
            from: self.from,
            to: self.to,
            comm,
            tag: self.tag,
        })
    }
}
