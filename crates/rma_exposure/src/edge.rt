//! What completes order before the returns of expwaits.
ghost use Rattle.std.specs.Prelude.{◌≡◌, ◌<◌, ◌^◌, ◌++◌, [], IfSome, OnOk};
ghost use Rattle.std.specs.List.{cons_option};
ghost use Rattle.rma_link.specs.Point.{return_of};
ghost use Rattle.rma_run.specs.Run.{IsRun, calls_of, by_number};
ghost use Rattle.rma_exposure.specs.Closing.{closing_of};
ghost use Rattle.rma_exposure.specs.Edge.{edge_from, edges_to, edges_at, exposure_edges};
ghost use Rattle.rma_exposure.specs.declared.side.Side.TheVariants.{Exposure};
ghost use Rattle.rma_exposure.specs.inside.Epochs.{kept_of, stated, IsOfRank, Represents};

use crate::exposures::Exposures;
use crate::opened::Opened;
use crate::side::Side;
use rma_base::{Memory, Name, Point, Rank};
use rma_call::RankCalls;
use rma_link::{Edge, Links, Member};

impl Exposures {
    /// Appends the edges of a run whose calls are taken: from the entry of each complete to the return of each expwait of a
    /// post that its start matches.
    ///
    /// # Errors
    ///
    /// `Memory`, and then some of the edges may be there.
    pub fn push_edges(&self, ranks: &[RankCalls], links: &mut Links) -> Result<(), Memory>
        requires run { IsRun ranks.now }
        requires represents { Represents (calls_of ranks.now) self.now }
        ensures edges { OnOk result (links.new.edges ≡ links.old.edges ++ exposure_edges ranks.now) }
        ensures meets { OnOk result (links.new.meets ≡ links.old.meets) }
    {
        for rank in ranks {
            self.push_rank_edges(ranks, rank, links)?;
        }
        Ok(())
    }

    /// Appends the edges to the expwaits of one rank.
    fn push_rank_edges(
        &self,
        ranks: &[RankCalls],
        rank: &RankCalls,
        links: &mut Links,
    ) -> Result<(), Memory>
        requires own { IsOfRank rank.now.calls (kept_of self.now.ranks.entries rank.now.rank.0) }
        requires run { IsRun ranks.now }
        requires represents { Represents (calls_of ranks.now) self.now }
        ensures edges { OnOk result (links.new.edges ≡ links.old.edges ++ by_number (edges_at (calls_of ranks.now) rank.now.rank) 0 rank.now.calls) }
        ensures meets { OnOk result (links.new.meets ≡ links.old.meets) }
    {
        let Some(epochs) = self.ranks.get(&rank.rank()) else {
            return Ok(());
        };
        for (number, epoch) in epochs.of(Side::Exposure).openers.iter() {
            self.push_edges_to(ranks, rank.rank(), *number, epoch, links)?;
        }
        Ok(())
    }

    /// Appends the edges to the expwait of a post, if it has one.
    fn push_edges_to(
        &self,
        ranks: &[RankCalls],
        rank: Rank,
        post: u32,
        epoch: &Opened,
        links: &mut Links,
    ) -> Result<(), Memory>
        requires run { IsRun ranks.now }
        requires represents { Represents (calls_of ranks.now) self.now }
        requires closing { epoch.now.close ≡ closing_of Exposure (calls_of ranks.now rank.0) post }
        requires below { IfSome epoch.now.close (λ closing. closing < 2 ^ 31) }
        ensures edges { OnOk result (links.new.edges ≡ links.old.edges ++ edges_to (calls_of ranks.now) rank post (stated epoch.now)) }
        ensures meets { OnOk result (links.new.meets ≡ links.old.meets) }
    {
        let Some(expwait) = epoch.close else {
            return Ok(());
        };
        for origin in epoch.group.numbers() {
            let edge = self.edge_from(ranks, rank, post, &epoch.window, expwait, Rank(*origin));
            push_some(links, edge)?;
        }
        Ok(())
    }

    /// The edge from the complete of the origin's start that matches the post, if there is one.
    fn edge_from(
        &self,
        ranks: &[RankCalls],
        rank: Rank,
        post: u32,
        window: &Name,
        expwait: u32,
        origin: Rank,
    ) -> Option<Edge>
        requires run { IsRun ranks.now }
        requires represents { Represents (calls_of ranks.now) self.now }
        requires expwait { expwait < 2 ^ 31 }
        ensures { result ≡ edge_from (calls_of ranks.now) rank post window.now expwait origin.0 }
    {
        let start = self.match_of(Side::Exposure, window, rank, post, origin)?;
        let call = self.closing_in(ranks, Side::Access, origin, start)?;
        let complete = Member { rank: origin, call };
        Some(Edge {
            from: complete.entry(),
            to: return_of(rank, expwait),
        })
    }

    /// The call of a rank that closes the epoch of the side which its call of this number opens.
    fn closing_in(&self, ranks: &[RankCalls], side: Side, rank: Rank, number: u32) -> Option<u32>
        requires run { IsRun ranks.now }
        requires represents { Represents (calls_of ranks.now) self.now }
        ensures closing { result ≡ closing_of side (calls_of ranks.now rank.0) number }
        ensures below { IfSome result (λ closing. closing < 2 ^ 31) }
    {
        self.closing_of(side, rank, number)
    }
}

/// Where the rank returns from its call of this number.
fn return_of(rank: Rank, call: u32) -> Point
    requires { call < 2 ^ 31 }
    ensures { result ≡ return_of rank call }
{
    Point {
        rank,
        pos: 2 * call + 1,
    }
}

/// Appends an edge, if there is one.
fn push_some(links: &mut Links, edge: Option<Edge>) -> Result<(), Memory>
    ensures edges { OnOk result (links.new.edges ≡ links.old.edges ++ cons_option edge []) }
    ensures meets { OnOk result (links.new.meets ≡ links.old.meets) }
{
    match edge {
        Some(edge) => links.push_edge(edge),
        None => Ok(()),
    }
}
