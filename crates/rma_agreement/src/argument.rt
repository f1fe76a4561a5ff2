//! What the calls of one round have to agree on.
ghost use Rattle.std.specs.Prelude.{◌≡◌, IfOk};
ghost use Rattle.rma_call.specs.Call.{what_of};
ghost use Rattle.rma_agreement.specs.Argument.{transfer_of, arguments_of, same_movement, same_transfer, same_arguments};

use rma_base::{Memory, Name, Rank};
use rma_call::{EpochCall, FrameCall, MovingCall, WhatRef, WindowCall};

/// What a call has to agree on with the others of its round.
#[derive(Drop)]
pub enum Arguments {
    /// That it is a barrier.
    Barrier,
    /// The window that it creates.
    Creation(Name),
    /// The words of a fence that every member has to give alike.
    Fence { noprecede: bool, nosucceed: bool },
    /// What it moves.
    Moving(Transfer),
    /// Nothing: it frees a window, or has no round.
    Nothing,
}

/// What a call moves.
#[derive(Clone, Copy)]
pub struct Transfer {
    /// From where to where.
    pub movement: Movement,
    /// The bytes that one sender gives to one receiver.
    pub bytes: u64,
    /// How many barriers and creations of windows stand before it on the communicator.
    pub place: usize,
}

/// From where to where a call moves data.
#[derive(Clone, Copy)]
pub enum Movement {
    /// From the root to all.
    Bcast(Rank),
    /// From the root to all, to each its own.
    Scatter(Rank),
    /// From all to the root.
    Gather(Rank),
    /// From all to the root, reduced.
    Reduce(Rank),
    /// From all to all, reduced.
    Allreduce,
    /// From all to all, the same to each.
    Allgather,
    /// From all to all, to each its own.
    Alltoall,
}

impl Arguments {
    /// Those of a call, before which so many barriers and creations of windows stand on its communicator.
    pub(crate) fn of(what: WhatRef<'_>, place: usize) -> Result<Arguments, Memory>
        ensures { IfOk result (λ arguments. arguments ≡ arguments_of place (what_of what.entry)) }
    {
        match what {
            WhatRef::Frame(FrameCall::Barrier { .. }) => Ok(Arguments::Barrier),
            WhatRef::Window(WindowCall::Create { window, .. }) => {
                let window = window.copy()?;
                Ok(Arguments::Creation(window))
            }
            WhatRef::Epoch(EpochCall::Fence { assertions, .. }) => Ok(Arguments::Fence {
                noprecede: assertions.noprecede,
                nosucceed: assertions.nosucceed,
            }),
            WhatRef::Moving(call) => Ok(Arguments::Moving(transfer_of(call, place))),
            _ => Ok(Arguments::Nothing),
        }
    }

    /// Whether they agree with those of the first call of the round.
    pub(crate) fn agree_with(&self, first: &Arguments) -> bool
        ensures { result ≡ same_arguments first.now self.now }
    {
        match (first, self) {
            (Arguments::Barrier, Arguments::Barrier) | (Arguments::Nothing, Arguments::Nothing) =>
                true,
            (Arguments::Creation(window), Arguments::Creation(own)) => own == window,
            (
                Arguments::Fence {
                    noprecede,
                    nosucceed,
                },
                Arguments::Fence {
                    noprecede: own_noprecede,
                    nosucceed: own_nosucceed,
                },
            ) => own_noprecede == noprecede && own_nosucceed == nosucceed,
            (Arguments::Moving(first), Arguments::Moving(own)) => own.agrees_with(first),
            _ => false,
        }
    }
}

impl Transfer {
    /// Whether it agrees with that of the first call of the round.
    pub(crate) fn agrees_with(&self, first: &Transfer) -> bool
        ensures { result ≡ same_transfer first.now self.now }
    {
        self.movement.agrees_with(&first.movement)
            && self.bytes == first.bytes
            && self.place == first.place
    }
}

impl Movement {
    /// Whether it agrees with that of the first call of the round.
    fn agrees_with(&self, first: &Movement) -> bool
        ensures { result ≡ same_movement first.now self.now }
    {
        match (first, self) {
            (Movement::Bcast(root), Movement::Bcast(own))
            | (Movement::Scatter(root), Movement::Scatter(own))
            | (Movement::Gather(root), Movement::Gather(own))
            | (Movement::Reduce(root), Movement::Reduce(own)) => own.0 == root.0,
            (Movement::Allreduce, Movement::Allreduce)
            | (Movement::Allgather, Movement::Allgather)
            | (Movement::Alltoall, Movement::Alltoall) => true,
            _ => false,
        }
    }
}

/// What a call moves, before which so many barriers and creations of windows stand.
pub(crate) fn transfer_of(call: &MovingCall, place: usize) -> Transfer
    ensures { result ≡ transfer_of place call.now }
{
    let (movement, bytes) = match call {
        MovingCall::Bcast { root, bytes, .. } => (Movement::Bcast(*root), *bytes),
        MovingCall::Scatter { root, bytes, .. } => (Movement::Scatter(*root), *bytes),
        MovingCall::Gather { root, bytes, .. } => (Movement::Gather(*root), *bytes),
        MovingCall::Reduce { root, bytes, .. } => (Movement::Reduce(*root), *bytes),
        MovingCall::Allreduce { bytes, .. } => (Movement::Allreduce, *bytes),
        MovingCall::Allgather { bytes, .. } => (Movement::Allgather, *bytes),
        MovingCall::Alltoall { bytes, .. } => (Movement::Alltoall, *bytes),
    };
    Transfer {
        movement,
        bytes,
        place,
    }
}
