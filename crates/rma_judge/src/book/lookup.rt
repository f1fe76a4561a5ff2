//! Looking up the communicators and the windows of a book by their names.
ghost use Rattle.std.specs.Prelude.{◌≡◌, ◌||◌, Some, is_some, IfSome};
ghost use Rattle.std.specs.Map.{lookup};
ghost use Rattle.std.specs.Option.{option_copied};
ghost use Rattle.rma_judge.specs.Names.{is_same, world, is_there, is_fixed};

use crate::book::Book;
use crate::names::WindowState;
use rma_base::{Name, RankSet};

impl Book {
    /// Whether there is such a communicator.
    #[inline]
    pub(super) fn has_comm(&self, comm: &Name) -> bool
        ensures { result ≡ (is_same world comm.now || is_some (lookup (is_same comm.now) self.now.comms)) }
    {
        is_world(comm) || self.members(comm).is_some()
    }

    /// The members of a communicator, if it was declared: mostly of that of which a call spoke last, which is looked at first.
    #[inline]
    pub(super) fn members(&self, comm: &Name) -> Option<&RankSet>
        ensures { option_copied result ≡ lookup (is_same comm.now) self.now.comms }
    {
        match self.members_at(self.last_comm.get(), comm) {
            Some(ranks) => Some(ranks),
            None => self.find_members(comm),
        }
    }

    // The same, where it is not known where the communicator stands.
    #[inline(never)]
    fn find_members(&self, comm: &Name) -> Option<&RankSet>
        ensures { option_copied result ≡ lookup (is_same comm.now) self.now.comms }
    {
        match self.comms.get_full(comm) {
            Some((index, _, ranks)) => {
                self.last_comm.set(index);
                Some(ranks)
            }
            None => None,
        }
    }

    // The members of the communicator that stands at an index, if it is this one.
    #[inline]
    fn members_at(&self, index: usize, comm: &Name) -> Option<&RankSet>
        ensures { IfSome result (λ ranks. lookup (is_same comm.now) self.now.comms ≡ Some ranks.now) }
    {
        match self.comms.get_index(index) {
            Some((name, ranks)) if name == comm => Some(ranks),
            _ => None,
        }
    }

    /// Whether the window was created, and not freed.
    #[inline]
    pub(super) fn has_window(&self, window: &Name) -> bool
        ensures { result ≡ is_there (lookup (is_same window.now) self.now.windows) }
    {
        match self.state(window) {
            Some(WindowState::Fixed) => true,
            Some(WindowState::Dynamic) => true,
            Some(WindowState::Freed) => false,
            None => false,
        }
    }

    /// Whether the window is there, with memory of its own.
    pub(super) fn is_fixed(&self, window: &Name) -> bool
        ensures { result ≡ is_fixed (lookup (is_same window.now) self.now.windows) }
    {
        match self.state(window) {
            Some(WindowState::Fixed) => true,
            Some(WindowState::Dynamic) => false,
            Some(WindowState::Freed) => false,
            None => false,
        }
    }

    // What became of a window, if it was created: mostly of that of which a call spoke last, which is looked at first.
    #[inline]
    fn state(&self, window: &Name) -> Option<WindowState>
        ensures { result ≡ lookup (is_same window.now) self.now.windows }
    {
        match self.state_at(self.last_window.get(), window) {
            Some(state) => Some(state),
            None => self.find_state(window),
        }
    }

    // The same, where it is not known where the window stands.
    #[inline(never)]
    fn find_state(&self, window: &Name) -> Option<WindowState>
        ensures { result ≡ lookup (is_same window.now) self.now.windows }
    {
        match self.windows.get_full(window) {
            Some((index, _, state)) => {
                self.last_window.set(index);
                Some(*state)
            }
            None => None,
        }
    }

    // What became of the window that stands at an index, if it is this one.
    #[inline]
    fn state_at(&self, index: usize, window: &Name) -> Option<WindowState>
        ensures { IfSome result (λ state. lookup (is_same window.now) self.now.windows ≡ Some state) }
    {
        match self.windows.get_index(index) {
            Some((name, state)) if name == window => Some(*state),
            _ => None,
        }
    }
}

/// Whether the name is that of the communicator of all ranks.
pub(super) fn is_world(comm: &Name) -> bool
    ensures { result ≡ is_same world comm.now }
{
    b"world".as_slice() == comm.bytes()
}
