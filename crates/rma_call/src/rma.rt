//! Calls that access the part of a target (MPI 4.0, "One-Sided Communications").
ghost use Rattle.std.specs.Prelude.{◌≡◌, option_map};
ghost use Rattle.rma_bytes.specs.Layout.{layout_by};
ghost use Rattle.rma_call.specs.Rma.{access_of};

use rma_base::{Name, Rank};
use rma_bytes::{Distance, Layout, MovedLayout};
use rma_datatype::Op;

/// A call that accesses the part of a target. A call without a target has no effect, and touches no byte.
#[derive(Debug, Drop)]
pub struct RmaCall {
    /// The window.
    pub window: Name,
    /// The target; none for a call that has no effect.
    pub target: Option<Rank>,
    /// What is done.
    pub kind: RmaKind,
    /// Where in the target's part the access starts, in displacement units.
    pub displacement: u64,
    /// What is accessed there, in bytes from that start.
    pub at_target: Layout,
    /// The buffer that the caller sends, or into which it gets; none where the operation has no use for it.
    pub origin: Option<Layout>,
    /// The buffer into which is read what stood at the target before.
    pub result: Option<Layout>,
    /// The buffer with which the target is compared.
    pub compare: Option<Layout>,
}

/// What is done at the target.
#[derive(Clone, Copy, Debug, PartialEq, Eq)]
pub enum RmaKind {
    /// The origin is written there.
    Put,
    /// What stands there is read into the origin.
    Get,
    /// The origin is combined with what stands there.
    Accumulate(Op),
    /// The same, where what stood there is read before.
    GetAccumulate(Op),
    /// One element is combined with what stands there, which is read before.
    FetchAndOp(Op),
    /// One element takes the place of what stands there, where that equals another; it is read before.
    CompareAndSwap,
}

/// Where a call is made that does what another does elsewhere.
#[derive(Clone, Copy, Debug)]
pub struct Placement {
    /// The target.
    pub target: Rank,
    /// Where in the target's part the access starts, in displacement units.
    pub displacement: u64,
    /// How far its origin lies from that of the other.
    pub origin: Distance,
    /// How far its result lies from that of the other.
    pub result: Distance,
    /// How far the buffer lies with which the target is compared.
    pub compare: Distance,
}

/// A call that accesses the part of a target, where it stands.
#[derive(Clone, Copy, Debug)]
pub enum RmaRef<'a> {
    /// It stands there by itself.
    Stated(&'a RmaCall),
    /// It does what another does elsewhere.
    Placed(&'a RmaCall, &'a Placement),
}

impl<'a> RmaRef<'a> {
    /// What is stated of it that does not depend on where it is made.
    #[inline]
    fn stated(self) -> &'a RmaCall
        ensures window { result.now.window ≡ (access_of self.entry).window }
        ensures kind { result.now.kind ≡ (access_of self.entry).kind }
        ensures at_target { result.now.at_target ≡ (access_of self.entry).at_target }
    {
        match self {
            RmaRef::Stated(call) => call,
            RmaRef::Placed(call, _) => call,
        }
    }

    /// The window.
    #[inline]
    pub fn window(self) -> &'a Name
        ensures { result.now ≡ (access_of self.entry).window }
    {
        &self.stated().window
    }

    /// The target; none for a call that has no effect.
    #[inline]
    pub fn target(self) -> Option<Rank>
        ensures { result ≡ (access_of self.entry).target }
    {
        match self {
            RmaRef::Stated(call) => call.target,
            RmaRef::Placed(_, place) => Some(place.target),
        }
    }

    /// What is done.
    #[inline]
    pub fn kind(self) -> RmaKind
        ensures { result ≡ (access_of self.entry).kind }
    {
        self.stated().kind
    }

    /// Where in the target's part the access starts, in displacement units.
    #[inline]
    pub fn displacement(self) -> u64
        ensures { result ≡ (access_of self.entry).displacement }
    {
        match self {
            RmaRef::Stated(call) => call.displacement,
            RmaRef::Placed(_, place) => place.displacement,
        }
    }

    /// What is accessed there, in bytes from that start.
    #[inline]
    pub fn at_target(self) -> &'a Layout
        ensures { result.now ≡ (access_of self.entry).at_target }
    {
        &self.stated().at_target
    }

    /// The buffer that the caller sends, or into which it gets; none where the operation has no use for it.
    pub fn origin(self) -> Option<MovedLayout<'a>>
        ensures { result ≡ (access_of self.entry).origin }
    {
        match self {
            RmaRef::Stated(call) => unmoved_if(&call.origin),
            RmaRef::Placed(call, place) => moved_if(&call.origin, place.origin),
        }
    }

    /// The buffer into which is read what stood at the target before.
    pub fn result(self) -> Option<MovedLayout<'a>>
        ensures { result ≡ (access_of self.entry).result }
    {
        match self {
            RmaRef::Stated(call) => unmoved_if(&call.result),
            RmaRef::Placed(call, place) => moved_if(&call.result, place.result),
        }
    }

    /// The buffer with which the target is compared.
    pub fn compare(self) -> Option<MovedLayout<'a>>
        ensures { result ≡ (access_of self.entry).compare }
    {
        match self {
            RmaRef::Stated(call) => unmoved_if(&call.compare),
            RmaRef::Placed(call, place) => moved_if(&call.compare, place.compare),
        }
    }
}

/// A buffer that may be there, moved by a distance.
fn moved_if(layout: &Option<Layout>, by: Distance) -> Option<MovedLayout<'_>>
    ensures { result ≡ option_map (layout_by by) layout.now }
{
    match layout {
        Some(layout) => Some(MovedLayout::new(layout, by)),
        None => None,
    }
}

/// A buffer that may be there, where it stands.
fn unmoved_if(layout: &Option<Layout>) -> Option<MovedLayout<'_>>
    ensures { result ≡ layout.now }
{
    match layout {
        Some(layout) => Some(MovedLayout::unmoved(layout)),
        None => None,
    }
}
