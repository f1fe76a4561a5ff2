//! Which regions are live at a call.
ghost use Rattle.std.specs.Prelude.{◌≡◌, ◌<◌, ◌^◌, ◌↔◌, All, IsTrue, Some, slice_get};
ghost use Rattle.rma_dyn.specs.Region.{IsAtSame, IsLiveAt};
ghost use Rattle.rma_dyn.specs.inside.Live.{IsKnown, IsStill};
ghost use Rattle.rma_dyn.specs.inside.Sorted.{AreOnce, Rise};

use crate::change::Change;
use crate::sorted::{behind_of, detach_of};
use rma_rules::Owner;

/// Whether a detach has a region to end: one that is live then, and begins at its address. The attaches there are asked from the last one
/// back.
pub(crate) fn is_known(list: &[Change], detach: &Change) -> bool
    requires rise { Rise list.now }
    requires once { AreOnce list.now }
    requires small { All (λ c. c.call < 2 ^ 31) list.now }
    ensures { IsTrue result ↔ IsKnown list.now detach.now }
{
    let owner = Owner {
        rank: detach.rank,
        window: detach.window,
    };
    let mut behind = behind_of(list, owner, detach.address, detach.call);
    'back: while 0 < behind {
        let own = &list[behind - 1];
        if !is_at_same(own, detach) {
            return false;
        }
        if is_live(list, behind - 1, own, detach.call) {
            return true;
        }
        behind -= 1;
    }
    false
}

/// Whether two are at one address of one window of one rank.
pub(crate) fn is_at_same(own: &Change, other: &Change) -> bool
    ensures { IsTrue result ↔ IsAtSame own.now other.now }
{
    own.rank == other.rank && own.window == other.window && own.address == other.address
}

/// Whether the one at an index is an attach whose region is live at the call of a number of its rank.
pub(crate) fn is_live(list: &[Change], index: usize, own: &Change, number: u32) -> bool
    requires rise { Rise list.now }
    requires once { AreOnce list.now }
    requires place { slice_get list.now index ≡ Some own.now }
    requires small { own.now.call < 2 ^ 31 }
    ensures { IsTrue result ↔ IsLiveAt list.now own.now number }
{
    match own.size {
        Some(_) => own.call < number && is_still(list, index, own, number),
        None => false,
    }
}

/// Whether the attach at an index has no detach before the call of a number of its rank.
fn is_still(list: &[Change], index: usize, own: &Change, number: u32) -> bool
    requires rise { Rise list.now }
    requires once { AreOnce list.now }
    requires place { slice_get list.now index ≡ Some own.now }
    requires small { own.now.call < 2 ^ 31 }
    ensures { IsTrue result ↔ IsStill list.now own.now number }
{
    match detach_of(list, index, own) {
        Some(detach) => number <= detach.call,
        None => true,
    }
}
