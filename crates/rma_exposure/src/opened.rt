//! What is known of an epoch that was opened.
ghost use Rattle.std.specs.Prelude.{◌≡◌, None, IfOk};

use rma_base::{Memory, Name, RankSet};

/// What is known of an epoch that was opened.
#[derive(Drop)]
pub(crate) struct Opened {
    /// The window that it is on.
    pub(crate) window: Name,
    /// The ranks that it is open to.
    pub(crate) group: RankSet,
    /// The number of the call that closes it, where one did.
    pub(crate) close: Option<u32>,
}

impl Opened {
    /// An epoch that no call has closed.
    pub(crate) fn new(window: &Name, group: &RankSet) -> Result<Opened, Memory>
        ensures { IfOk result (λ epoch. epoch ≡ record { window = window.now; group = group.now; close = None }) }
    {
        let window = window.copy()?;
        let group = group.copy()?;
        Ok(Opened {
            window,
            group,
            close: None,
        })
    }
}
