//! Accesses that follow one another.
ghost use Rattle.std.specs.Prelude.{◌≡◌, ◌↔◌, ◌⊎◌, ◌≤◌, ◌++◌, ◌∷◌, ℕ, List, [], Contains, IfOk, IsTrue, OnErr, OnOk, drop, length};
ghost use Rattle.rma_link.specs.declared.links.Links.{Links};
ghost use Rattle.rma_rules.specs.Access.{Access, IsOnWindowOf};
ghost use Rattle.rma_rules.specs.Spans.{Spans};
ghost use Rattle.rma_finding.specs.declared.finding.FoundRace.{FoundRace};
ghost use Rattle.rma_pairs.specs.Races.{IsFoundBetween};
ghost use Rattle.rma_chain.specs.Asked.{MayBeAsked};
ghost use Rattle.rma_chain.specs.Chain.{AreFollowedBy, IsChain};

use crate::between::find_within;
use crate::deed::may_race;
use crate::follow::is_followed_by;
use crate::place::{count_before, first_after};
use rma_base::Memory;
use rma_clock::Clocks;
use rma_finding::FoundRace;
use rma_rules::{Access, Spans};
use rma_window::Windows;
use std::alloc::Global;
use std::marker::Model;

/// Whether two accesses that have no more runs together share a byte is told sooner than their order.
const FEW_RUNS: usize = 8;

/// Accesses that follow one another, each of which does the same as those before. Contracts see them as their list.
#[derive(Drop)]
pub struct Chain<'a> {
    /// The accesses, in their order.
    accesses: Vec<Access<'a>>,
}

impl<'a> Model for Chain<'a> {
    ghost use Rattle.std.specs.Prelude.{List};
    ghost use Rattle.rma_rules.specs.Access.{Access, IsOnWindowOf};
    ghost use Rattle.rma_rules.specs.Spans.{Spans};
    ghost use Rattle.rma_chain.specs.Chain.{IsChain};

    ghost Value = { List Access };

    ghost view = { λ chain. chain.accesses.items };

    ghost invariant = { λ chain. IsChain chain.accesses.items };
}

impl<'a> Chain<'a> {
    /// One access alone.
    ///
    /// # Errors
    ///
    /// `Memory` where there is none left.
    pub fn of(alloc: Global, access: Access<'a>) -> Result<Chain<'a>, Memory>
        ensures { IfOk result (λ chain. chain ≡ access.entry ∷ []) }
    {
        let mut accesses = Vec::with_capacity(alloc, 1)?;
        accesses.push(access)?;
        Ok(Chain { accesses })
    }

    /// The accesses, in their order.
    pub fn accesses(&self) -> &[Access<'a>]
        ensures value { result.now ≡ self.now }
        ensures chain { IsChain self.now }
    {
        self.accesses.as_slice()
    }

    /// Whether an access follows those of the chain, so that it may be added. It may say no of one that does: the chain is then one of two.
    pub fn is_followed_by(&self, access: &Access<'_>) -> bool
        ensures some { IsTrue result → (a : Access) × Contains self.now a }
        ensures follows { IsTrue result → AreFollowedBy self.now access.now }
    {
        match self.accesses.last() {
            Some(last) => is_followed_by(last, access),
            None => false,
        }
    }

    /// Adds an access that follows those of the chain.
    ///
    /// # Errors
    ///
    /// `Memory` where there is none left; then the chain is as before.
    pub fn push(&mut self, access: Access<'a>) -> Result<(), Memory>
        requires { AreFollowedBy self.old access }
        ensures ok { OnOk result (self.new ≡ self.old ++ access.entry ∷ []) }
        ensures err { OnErr result (self.new ≡ self.old) }
    {
        self.accesses.push(access)?;
        Ok(())
    }

    /// Lets so many of the first accesses go.
    pub fn let_go(&mut self, count: usize)
        requires { count ≤ length self.old }
        ensures { self.new ≡ drop count self.old }
    {
        let left = self.accesses.len() - count;
        self.accesses.rotate_left(count);
        self.accesses.truncate(left);
    }

    /// Adds what is found of an access with each of the chain: with a logarithm of their number of questions, and one more for each
    /// that is neither before the access nor after it. Their bytes are asked before their order only where they are few runs.
    ///
    /// # Errors
    ///
    /// `Memory` where there is none left; then something of it may have been found.
    pub fn find<C: Clocks>(
        &self,
        alloc: Global,
        access: &Access<'_>,
        lists: &Spans,
        windows: &Windows,
        clocks: &C,
        found: &mut Vec<FoundRace>,
    ) -> Result<(), Memory>
        requires { (points : List ℕ) × (links : Links) × C.are_of clocks.now points links × ((a : Access) → Contains self.now a → MayBeAsked points windows.now lists.now a access.now) }
        ensures { OnOk result ((points : List ℕ) (links : Links) → C.are_of clocks.now points links → ((a : Access) → Contains self.now a → MayBeAsked points windows.now lists.now a access.now)
            → (race : FoundRace) → Contains found.new.items race ↔ (Contains found.old.items race ⊎ ((a : Access) × Contains self.now a × IsFoundBetween links windows.now lists.now a access.now race))) }
    {
        if self.is_told_apart(access, windows) {
            return Ok(());
        }
        self.find_unordered(alloc, access, lists, windows, clocks, found)
    }

    /// Whether it is told at little cost that none of the chain races with an access, whatever the order: where both have few runs, by
    /// what they do.
    fn is_told_apart(&self, access: &Access<'_>, windows: &Windows) -> bool
        requires a { (a : Access) → Contains self.now a → IsOnWindowOf windows.now a }
        requires b { (a : Access) → Contains self.now a → IsOnWindowOf windows.now access.now }
        ensures { IsTrue result → (links : Links) (spans : Spans) (a : Access) (race : FoundRace) → Contains self.now a → ¬ IsFoundBetween links windows.now spans a access.now race }
    {
        match self.accesses.last() {
            Some(last) => {
                last.bytes.len().saturating_add(access.bytes.len()) <= FEW_RUNS
                    && !may_race(last, access, windows)
            }
            None => true,
        }
    }

    /// Adds what is found of an access with each of the chain that is neither before it nor after it.
    fn find_unordered<C: Clocks>(
        &self,
        alloc: Global,
        access: &Access<'_>,
        lists: &Spans,
        windows: &Windows,
        clocks: &C,
        found: &mut Vec<FoundRace>,
    ) -> Result<(), Memory>
        requires { (points : List ℕ) × (links : Links) × C.are_of clocks.now points links × ((a : Access) → Contains self.now a → MayBeAsked points windows.now lists.now a access.now) }
        ensures { OnOk result ((points : List ℕ) (links : Links) → C.are_of clocks.now points links → ((a : Access) → Contains self.now a → MayBeAsked points windows.now lists.now a access.now)
            → (race : FoundRace) → Contains found.new.items race ↔ (Contains found.old.items race ⊎ ((a : Access) × Contains self.now a × IsFoundBetween links windows.now lists.now a access.now race))) }
    {
        let chain = self.accesses.as_slice();
        let Some(last) = chain.last() else {
            return Ok(());
        };
        let from = count_before(chain, access, lists, windows, clocks);
        if from == chain.len() {
            return Ok(());
        }
        let to = first_after(chain, access, lists, windows, clocks);
        if to <= from || !may_race(last, access, windows) {
            return Ok(());
        }
        find_within(
            alloc, chain, from, to, access, lists, windows, clocks, found,
        )
    }
}
