//! What the lines of a log state.
pub(crate) mod local_line;
pub(crate) mod rma_line;
pub(crate) mod type_line;

pub use local_line::LocalLine;
use rma_base::{Name, Rank, Site, Version};
use rma_call::SyncCall;
pub use rma_line::{Access, Buffer, RmaLine, Transfer};
pub use type_line::TypeLine;

/// What a line states.
#[derive(Debug, Drop)]
pub struct Stated {
    /// The event.
    pub event: Event,
    /// Where it stands in the source of the program, if the recorder says so.
    pub site: Option<Site>,
}

/// An event of one rank.
#[derive(Debug, Drop)]
pub enum Event {
    /// The log begins: `rma VERSION RANK SIZE`.
    Header {
        /// The version of the format that the log has.
        version: Version,
        /// The rank whose log it is.
        rank: Rank,
        /// The number of ranks of the run.
        size: u32,
    },
    /// The log is whole: `end`.
    End,
    /// The rank makes a call that accesses no memory.
    Call {
        /// What it does.
        call: SyncCall,
        /// The request that it makes or completes.
        request: Option<Name>,
    },
    /// Something happens to a datatype.
    Datatype(TypeLine),
    /// The rank makes a call that accesses the part of a target.
    Rma {
        /// What it does.
        line: RmaLine,
        /// The request that it makes.
        request: Option<Name>,
    },
    /// The rank accesses its own memory.
    Local(LocalLine),
}
