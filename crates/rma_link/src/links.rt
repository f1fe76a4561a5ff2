//! All links of a run.
ghost use Rattle.std.specs.Prelude.{◌≡◌, ◌++◌, [], ◌∷◌, OnOk, OnErr};

use crate::edge::Edge;
use crate::meet::Meet;
use rma_base::{Memory, Sequence};
use std::alloc::Global;

/// What comes before what, beside the order of each rank.
#[derive(Debug, Drop)]
pub struct Links {
    /// Entries before returns, in any order.
    pub edges: Sequence<Edge>,
    /// Calls that wait for one another, in any order.
    pub meets: Sequence<Meet>,
}

impl Links {
    /// No links.
    pub fn new(alloc: Global) -> Links
        ensures edges { result.edges ≡ [] }
        ensures meets { result.meets ≡ [] }
    {
        Links {
            edges: Sequence::new(alloc),
            meets: Sequence::new(alloc),
        }
    }

    /// Adds an edge.
    ///
    /// # Errors
    ///
    /// `Memory`, and then the links are as they were.
    pub fn push_edge(&mut self, edge: Edge) -> Result<(), Memory>
        ensures ok { OnOk result (self.new ≡ record self.old { edges = self.old.edges ++ edge ∷ [] }) }
        ensures err { OnErr result (self.new ≡ self.old) }
    {
        self.edges.push(edge)
    }

    /// Adds a meet.
    ///
    /// # Errors
    ///
    /// `Memory`, and then the links are as they were.
    pub fn push_meet(&mut self, meet: Meet) -> Result<(), Memory>
        ensures ok { OnOk result (self.new ≡ record self.old { meets = self.old.meets ++ meet ∷ [] }) }
        ensures err { OnErr result (self.new ≡ self.old) }
    {
        self.meets.push(meet)
    }
}
