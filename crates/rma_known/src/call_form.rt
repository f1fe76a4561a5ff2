//! The forms of calls that programs make again elsewhere, and what their fields say.
ghost use Rattle.std.specs.Prelude.{◌≡◌};
ghost use Rattle.rma_known.specs.Elsewhere.{form_of_call, part_of, places_of};

use rma_base::Version;
use rma_base::limits::SPACE;
use rma_form::LineForm;

/// The form of a line that states a call, which programs make again elsewhere: an access or a synchronisation (MPI 4.0,
/// "One-Sided Communications"), a message ("Point-to-Point Communication"), a collective ("Collective Communication"), or one that
/// makes a communicator ("Groups, Contexts, Communicators, and Caching").
#[derive(Clone, Copy, Debug, PartialEq, Eq)]
pub enum CallForm {
    /// `put`
    Put,
    /// `get`
    Get,
    /// `acc`
    Accumulate,
    /// `getacc`
    GetAccumulate,
    /// `fop`
    FetchAndOp,
    /// `cas`
    CompareAndSwap,
    /// `load`
    Load,
    /// `store`
    Store,
    /// `poll`
    Poll,
    /// `comm`
    Comm,
    /// `barrier`
    Barrier,
    /// `send`
    Send,
    /// `recv`
    Recv,
    /// `isend`
    Isend,
    /// `irecv`
    Irecv,
    /// `wait`
    Wait,
    /// `wait`, with what came
    Received,
    /// `fence`
    Fence,
    /// `post`
    Post,
    /// `post`, for one rank
    PostOne,
    /// `start`
    Start,
    /// `start`, for one rank
    StartOne,
    /// `complete`
    Complete,
    /// `expwait`
    Expwait,
    /// `lock`
    Lock,
    /// `unlock`
    Unlock,
    /// `lockall`
    LockAll,
    /// `unlockall`
    UnlockAll,
    /// `flush`
    Flush,
    /// `flushall`
    FlushAll,
    /// `flushlocal`
    FlushLocal,
    /// `flushlocalall`
    FlushLocalAll,
    /// `sync`
    Sync,
    /// `attach`
    Attach,
    /// `detach`
    Detach,
    /// `bcast`
    Bcast,
    /// `scatter`
    Scatter,
    /// `gather`
    Gather,
    /// `reduce`
    Reduce,
    /// `allreduce`
    Allreduce,
    /// `allgather`
    Allgather,
    /// `alltoall`
    Alltoall,
}

/// What a field of such a call says.
#[derive(Clone, Copy, Debug, PartialEq, Eq)]
pub enum Place {
    /// What is done, and how.
    Same,
    /// A rank: the target, the other end of a message, the root, or the only rank of a group.
    Rank,
    /// An address, a displacement, or a number of bytes.
    Address,
    /// A tag.
    Tag,
    /// The name of a communicator or of a window.
    Name,
    /// The name of a request.
    Request,
}

/// What a field may be that is a particular of its call.
#[derive(Clone, Copy, Debug, Default, PartialEq, Eq)]
pub enum Part {
    /// A number up to this.
    Number(u64),
    /// A name that comes again and again.
    #[default]
    Name,
    /// A name that is another each time.
    Request,
}

/// The greatest tag of a message.
const TAG: u64 = 2_147_483_647;

impl Place {
    /// What a field may be that says this, if it is a particular.
    #[inline]
    pub(crate) fn part(self, version: Version) -> Option<Part>
        ensures { result ≡ part_of version self }
    {
        match self {
            Place::Same => None,
            Place::Rank => Some(Part::Number(u64::from(version.ranks() - 1))),
            Place::Address => Some(Part::Number(SPACE)),
            Place::Tag => Some(Part::Number(TAG)),
            Place::Name => Some(Part::Name),
            Place::Request => Some(Part::Request),
        }
    }
}

impl CallForm {
    /// The form of its lines.
    pub(crate) fn line_form(self) -> LineForm
        ensures { result ≡ form_of_call self }
    {
        match self {
            CallForm::Put => LineForm::Put,
            CallForm::Get => LineForm::Get,
            CallForm::Accumulate => LineForm::Accumulate,
            CallForm::GetAccumulate => LineForm::GetAccumulate,
            CallForm::FetchAndOp => LineForm::FetchAndOp,
            CallForm::CompareAndSwap => LineForm::CompareAndSwap,
            CallForm::Load => LineForm::Load,
            CallForm::Store => LineForm::Store,
            CallForm::Poll => LineForm::Poll,
            CallForm::Comm => LineForm::Comm,
            CallForm::Barrier => LineForm::Barrier,
            CallForm::Send => LineForm::Send,
            CallForm::Recv => LineForm::Recv,
            CallForm::Isend => LineForm::Isend,
            CallForm::Irecv => LineForm::Irecv,
            CallForm::Fence => LineForm::Fence,
            CallForm::Post | CallForm::PostOne => LineForm::Post,
            CallForm::Start | CallForm::StartOne => LineForm::Start,
            CallForm::Complete => LineForm::Complete,
            CallForm::Expwait => LineForm::Expwait,
            CallForm::Lock => LineForm::Lock,
            CallForm::Unlock => LineForm::Unlock,
            CallForm::LockAll => LineForm::LockAll,
            CallForm::UnlockAll => LineForm::UnlockAll,
            CallForm::Flush => LineForm::Flush,
            CallForm::FlushAll => LineForm::FlushAll,
            CallForm::FlushLocal => LineForm::FlushLocal,
            CallForm::FlushLocalAll => LineForm::FlushLocalAll,
            CallForm::Sync => LineForm::Sync,
            CallForm::Attach => LineForm::Attach,
            CallForm::Detach => LineForm::Detach,
            CallForm::Bcast => LineForm::Bcast,
            CallForm::Scatter => LineForm::Scatter,
            CallForm::Gather => LineForm::Gather,
            CallForm::Reduce => LineForm::Reduce,
            CallForm::Allreduce => LineForm::Allreduce,
            CallForm::Allgather => LineForm::Allgather,
            CallForm::Alltoall => LineForm::Alltoall,
            CallForm::Wait | CallForm::Received => LineForm::Wait,
        }
    }

    /// What each field says, as far as they are told one by one.
    #[inline]
    pub(crate) fn places(self) -> &'static [Place]
        ensures { result.now ≡ places_of self }
    {
        use Place::{Address, Name, Rank, Request, Same, Tag};
        match self {
            CallForm::Put | CallForm::Get => &[
                Same, Rank, Address, Same, Same, Address, Same, Same,
            ],
            CallForm::Accumulate => &[Same, Same, Rank, Address, Same, Same, Address, Same, Same],
            CallForm::GetAccumulate => &[
                Same, Same, Rank, Address, Same, Same, Address, Same, Same, Address, Same, Same,
            ],
            CallForm::FetchAndOp => &[Same, Same, Rank, Address, Same, Address, Address],
            CallForm::CompareAndSwap => &[Same, Rank, Address, Same, Address, Address, Address],
            CallForm::Load | CallForm::Store | CallForm::Poll => &[Address, Same, Same],
            CallForm::Barrier
            | CallForm::Fence
            | CallForm::Complete
            | CallForm::Expwait
            | CallForm::LockAll
            | CallForm::UnlockAll
            | CallForm::FlushAll
            | CallForm::FlushLocalAll
            | CallForm::Sync => &[Name],
            CallForm::Send | CallForm::Recv => &[Rank, Tag, Name],
            CallForm::Isend => &[Request, Rank, Tag, Name],
            CallForm::Irecv => &[Request, Name],
            CallForm::Wait => &[Request],
            CallForm::Received => &[Request, Rank, Tag],
            CallForm::Comm | CallForm::Post | CallForm::Start => &[Name, Same],
            CallForm::Lock => &[Name, Rank, Same],
            CallForm::PostOne
            | CallForm::StartOne
            | CallForm::Unlock
            | CallForm::Flush
            | CallForm::FlushLocal => &[Name, Rank],
            CallForm::Attach => &[Name, Address, Same],
            CallForm::Detach => &[Name, Address],
            CallForm::Bcast | CallForm::Scatter | CallForm::Gather | CallForm::Reduce => &[
                Rank, Address, Name,
            ],
            CallForm::Allreduce | CallForm::Allgather | CallForm::Alltoall => &[Address, Name],
        }
    }
}
