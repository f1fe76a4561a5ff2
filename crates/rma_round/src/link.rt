//! The links that rounds give.
ghost use Rattle.std.specs.Prelude.{◌≡◌, ◌≤◌, ◌<◌, ◌^◌, ◌++◌, [], IfSome, length, OnOk};
ghost use Rattle.std.specs.List.{cons_option};
ghost use Rattle.rma_base.specs.Limits.{fed_limit};
ghost use Rattle.rma_call.specs.Call.{what_of};
ghost use Rattle.rma_run.specs.Run.{IsRun, calls_of, by_number};
ghost use Rattle.rma_round.specs.Edge.{call_of_root, edge_at, edges_at, round_edges};
ghost use Rattle.rma_round.specs.Meet.{round_meets, HasMeets};
ghost use Rattle.rma_round.specs.inside.Rounds.{Represents};
ghost use Rattle.rma_round.specs.inside.Met.{all_meets};

use crate::edge::{Rooted, edge_with, rooted_of};
use crate::rounds::Rounds;
use rma_base::{Memory, Rank};
use rma_call::{RankCalls, WhatRef};
use rma_link::{Edge, Links};

/// How many rounds of each name a turn has or more, where there are more turns than one.
const ROUNDS: usize = 16;

/// How many turns there are at most.
const TURNS: usize = 256;

impl Rounds {
    /// Appends the edges of a run whose calls are taken: one between the call of a root and that of each other rank, where data
    /// moves from the one to the other. Only a call that moves data has one.
    ///
    /// # Errors
    ///
    /// `Memory`, and then some of them may be there.
    pub fn push_edges(&self, ranks: &[RankCalls], links: &mut Links) -> Result<(), Memory>
        requires run { IsRun ranks.now }
        requires represents { Represents (calls_of ranks.now) self.now }
        ensures edges { OnOk result (links.new.edges ≡ links.old.edges ++ round_edges ranks.now) }
        ensures meets { OnOk result (links.new.meets ≡ links.old.meets) }
    {
        if self.movings.is_empty() {
            return Ok(());
        }
        self.push_ranks(ranks, links)
    }

    /// Appends the edges, rank by rank.
    fn push_ranks(&self, ranks: &[RankCalls], links: &mut Links) -> Result<(), Memory>
        requires run { IsRun ranks.now }
        requires represents { Represents (calls_of ranks.now) self.now }
        ensures edges { OnOk result (links.new.edges ≡ links.old.edges ++ round_edges ranks.now) }
        ensures meets { OnOk result (links.new.meets ≡ links.old.meets) }
    {
        for rank in ranks {
            self.push_rank(ranks, rank, links)?;
        }
        Ok(())
    }

    /// Appends the edges of the calls of one rank.
    fn push_rank(
        &self,
        ranks: &[RankCalls],
        rank: &RankCalls,
        links: &mut Links,
    ) -> Result<(), Memory>
        requires few { length rank.now.calls ≤ fed_limit }
        requires run { IsRun ranks.now }
        requires represents { Represents (calls_of ranks.now) self.now }
        ensures edges { OnOk result (links.new.edges ≡ links.old.edges ++ by_number (edges_at (calls_of ranks.now) rank.now.rank) 0 rank.now.calls) }
        ensures meets { OnOk result (links.new.meets ≡ links.old.meets) }
    {
        let calls = rank.calls();
        for i in 0..calls.len() {
            let edge = self.edge_at(ranks, rank.rank(), i as u32, calls.get(i).what);
            push_some(links, edge)?;
        }
        Ok(())
    }

    /// Appends the meets of a run whose calls are taken: one for each round of which a call waits for all, once.
    ///
    /// # Errors
    ///
    /// `Memory`, and then some of them may be there.
    pub fn push_meets(&self, ranks: &[RankCalls], links: &mut Links) -> Result<(), Memory>
        requires run { IsRun ranks.now }
        requires represents { Represents (calls_of ranks.now) self.now }
        ensures edges { OnOk result (links.new.edges ≡ links.old.edges) }
        ensures meets { OnOk result (HasMeets links.new.meets links.old.meets (round_meets ranks.now)) }
    {
        self.push_kinds(ranks, self.turns(), links)
    }

    /// In how many turns the meets are made: so many that a turn has some rounds of each name, and one where there are few rounds
    /// of each. Ranks mostly make rounds on several names by turns, so who goes over the meets in their order then goes over the
    /// calls of each rank nearly in theirs.
    fn turns(&self) -> usize
        ensures { 0 < result }
    {
        let mut names: usize = 0;
        let mut rounds: usize = 0;
        for kind in [&self.collectives, &self.frees, &self.fences, &self.movings] {
            names = names.saturating_add(kind.len());
            rounds = rounds.saturating_add(kind.rounds_in_all());
        }
        (rounds / names.max(1) / ROUNDS).min(TURNS).max(1)
    }

    /// Appends the meets, kind by kind, in so many turns each.
    fn push_kinds(&self, ranks: &[RankCalls], turns: usize, links: &mut Links) -> Result<(), Memory>
        requires run { IsRun ranks.now }
        requires represents { Represents (calls_of ranks.now) self.now }
        ensures edges { OnOk result (links.new.edges ≡ links.old.edges) }
        ensures meets { OnOk result (links.new.meets ≡ links.old.meets ++ all_meets ranks.now self.now turns) }
    {
        self.collectives
            .push_meets(self.alloc, ranks, turns, links)?;
        self.frees.push_meets(self.alloc, ranks, turns, links)?;
        self.fences.push_meets(self.alloc, ranks, turns, links)?;
        self.movings.push_meets(self.alloc, ranks, turns, links)
    }

    /// The edge of a call, if it moves data from a root or to it.
    fn edge_at(
        &self,
        ranks: &[RankCalls],
        rank: Rank,
        number: u32,
        what: WhatRef<'_>,
    ) -> Option<Edge>
        requires number { number < 2 ^ 31 }
        requires run { IsRun ranks.now }
        requires represents { Represents (calls_of ranks.now) self.now }
        ensures { result ≡ edge_at (calls_of ranks.now) rank number (what_of what.entry) }
    {
        let at = rooted_of(what)?;
        let call = self.call_of_root(ranks, rank, number, at)?;
        Some(edge_with(rank, number, at, call))
    }

    /// The root's call of the round of the call of this number of a rank, where the rank is not the root.
    fn call_of_root(
        &self,
        ranks: &[RankCalls],
        rank: Rank,
        number: u32,
        at: Rooted<'_>,
    ) -> Option<u32>
        requires run { IsRun ranks.now }
        requires represents { Represents (calls_of ranks.now) self.now }
        ensures call { result ≡ call_of_root (calls_of ranks.now) rank.0 number (record { to_root = at.entry.to_root; root = at.entry.root; comm = at.entry.comm.now }) }
        ensures below { IfSome result (λ call. call < 2 ^ 31) }
    {
        if at.root == rank {
            return None;
        }
        self.movings.match_of(at.comm, rank, number, at.root)
    }
}

/// Appends an edge, if there is one.
fn push_some(links: &mut Links, edge: Option<Edge>) -> Result<(), Memory>
    ensures edges { OnOk result (links.new.edges ≡ links.old.edges ++ cons_option edge []) }
    ensures meets { OnOk result (links.new.meets ≡ links.old.meets) }
{
    match edge {
        Some(edge) => links.push_edge(edge),
        None => Ok(()),
    }
}
