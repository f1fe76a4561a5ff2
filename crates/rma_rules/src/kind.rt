//! What accesses do.
ghost use Rattle.std.specs.Prelude.{◌≡◌, ◌↔◌, IsTrue};
ghost use Rattle.rma_rules.specs.Kind.{has_no_op, is_accumulate, is_get, is_load, is_local, is_no_op, is_poll, is_put, is_store, is_target, is_update};

use rma_datatype::Op;

/// The operation of an accumulate.
#[derive(Clone, Copy, Debug, PartialEq, Eq)]
pub enum Operation {
    /// The target is combined with the origin.
    Combine(Op),
    /// The origin takes the place of the target, where that equals another value.
    CompareAndSwap,
}

impl Operation {
    /// Whether it leaves the target as it is.
    pub fn is_no_op(self) -> bool
        ensures { result ≡ is_no_op self }
    {
        match self {
            Operation::Combine(Op::NoOp) => true,
            Operation::Combine(_) => false,
            Operation::CompareAndSwap => false,
        }
    }

    /// Whether it compares and swaps.
    pub fn is_swap(self) -> bool
        ensures { IsTrue result ↔ (self ≡ Operation.CompareAndSwap) }
    {
        matches!(self, Operation::CompareAndSwap)
    }
}

/// What an access does to the bytes that it touches.
#[derive(Clone, Copy, Debug, PartialEq, Eq)]
pub enum Kind {
    /// The rank loads them.
    Load,
    /// The rank stores there.
    Store,
    /// The rank loads them until another rank has written what it waits for.
    Poll,
    /// A call reads them, as a buffer.
    BufferRead,
    /// A call writes there, as a buffer.
    BufferWrite,
    /// A get reads them at its target.
    Get,
    /// A put writes there at its target.
    Put,
    /// An accumulate combines them with others at its target.
    Accumulate(Operation),
}

impl Kind {
    /// Whether the rank itself accesses its memory, outside any buffer of a call.
    pub fn is_local(self) -> bool
        ensures { result ≡ is_local self }
    {
        matches!(self, Kind::Load | Kind::Store | Kind::Poll)
    }

    /// Whether a call does this at its target.
    pub fn is_target(self) -> bool
        ensures { result ≡ is_target self }
    {
        matches!(self, Kind::Get | Kind::Put | Kind::Accumulate(_))
    }

    /// Whether it is a load, or a call reads a buffer.
    pub fn is_load(self) -> bool
        ensures { result ≡ is_load self }
    {
        matches!(self, Kind::Load | Kind::BufferRead)
    }

    /// Whether it is a poll.
    pub fn is_poll(self) -> bool
        ensures { result ≡ is_poll self }
    {
        matches!(self, Kind::Poll)
    }

    /// Whether it is a store, or a call writes a buffer.
    pub fn is_store(self) -> bool
        ensures { result ≡ is_store self }
    {
        matches!(self, Kind::Store | Kind::BufferWrite)
    }

    /// Whether it is a get.
    pub fn is_get(self) -> bool
        ensures { result ≡ is_get self }
    {
        matches!(self, Kind::Get)
    }

    /// Whether it is a put.
    pub fn is_put(self) -> bool
        ensures { result ≡ is_put self }
    {
        matches!(self, Kind::Put)
    }

    /// Whether it is an accumulate, with any operation.
    pub fn is_accumulate(self) -> bool
        ensures { result ≡ is_accumulate self }
    {
        matches!(self, Kind::Accumulate(_))
    }

    /// Whether it is an accumulate that leaves the target as it is.
    pub fn has_no_op(self) -> bool
        ensures { result ≡ has_no_op self }
    {
        match self {
            Kind::Accumulate(operation) => operation.is_no_op(),
            _ => false,
        }
    }

    /// Whether it writes at its target.
    pub fn is_update(self) -> bool
        ensures { result ≡ is_update self }
    {
        match self {
            Kind::Put => true,
            Kind::Accumulate(operation) => !operation.is_no_op(),
            _ => false,
        }
    }
}
