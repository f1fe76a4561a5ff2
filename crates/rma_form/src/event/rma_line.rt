//! What the lines of one-sided communication state (MPI 4.0, "One-Sided Communications").
use rma_base::{Name, Rank};
use rma_datatype::Op;

/// A call that accesses the part of a target.
#[derive(Debug, Drop)]
pub struct RmaLine {
    /// The window.
    pub window: Name,
    /// The target; none for a call that has no effect.
    pub target: Option<Rank>,
    /// Where in the target's part the access starts, in displacement units.
    pub displacement: u64,
    /// What is done there.
    pub access: Access,
}

/// What a call does at its target.
#[derive(Debug, Drop)]
pub enum Access {
    /// `put`: the buffer of the caller is written there.
    Put(Transfer),
    /// `get`: what stands there is read into the buffer of the caller.
    Get(Transfer),
    /// `acc`: the buffer of the caller is combined with what stands there.
    Accumulate {
        /// The operation.
        operation: Op,
        /// What is combined.
        transfer: Transfer,
    },
    /// `getacc`: the same, where what stood there is read before.
    GetAccumulate {
        /// The operation.
        operation: Op,
        /// What is combined.
        transfer: Transfer,
        /// The buffer into which is read.
        result: Buffer,
    },
    /// `fop`: one element is combined with what stands there, which is read before.
    FetchAndOp {
        /// The operation.
        operation: Op,
        /// The datatype of the element.
        datatype: Name,
        /// The address of the element.
        origin: u64,
        /// The address to which is read.
        result: u64,
    },
    /// `cas`: one element takes the place of what stands there, where that equals another; it is read before.
    CompareAndSwap {
        /// The datatype of the element.
        datatype: Name,
        /// The address of the element.
        origin: u64,
        /// The address of what it is compared with.
        compare: u64,
        /// The address to which is read.
        result: u64,
    },
}

/// Elements that move between a target and a buffer of the caller.
#[derive(Debug, Drop)]
pub struct Transfer {
    /// How many elements there are at the target.
    pub target_count: u32,
    /// Their datatype.
    pub target_type: Name,
    /// The buffer of the caller.
    pub origin: Buffer,
}

/// A buffer of the caller.
#[derive(Debug, Drop)]
pub struct Buffer {
    /// Its address.
    pub address: u64,
    /// How many elements it has.
    pub count: u32,
    /// Their datatype.
    pub datatype: Name,
}
