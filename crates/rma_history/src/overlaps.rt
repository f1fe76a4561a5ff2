//! Chains of accesses by the bytes that they touch.
ghost use Rattle.std.specs.Prelude.{◌≡◌, ◌↔◌, ◌⊎◌, ◌<◌, ◌≤◌, ◌++◌, ◌∷◌, ℕ, ℤ, List, [], Some, Contains, OnErr, OnOk, length, slice_get, slice_set};
ghost use Rattle.rma_bytes.specs.Runs.{HasByte};
ghost use Rattle.rma_cells.specs.Cells.{StandsAt};
ghost use Rattle.rma_rules.specs.Access.{Access};
ghost use Rattle.rma_history.specs.declared.reach.Hull.{Hull};
ghost use Rattle.rma_history.specs.inside.Hull.{IsWithin};
ghost use Rattle.rma_history.specs.inside.Overlaps.{GoesOn, IsHome};

use crate::reach::{Hull, reach_of};
use rma_base::Memory;
use rma_bytes::Runs;
use rma_cells::{Cells, Steps};
use rma_chain::Chain;
use rma_rules::{Access, Bytes};
use std::alloc::Global;
use std::marker::{Brand, Model};
use std::sync::ledger::{Blank, Ledger};

/// So many chains are looked at one by one: the last ones, which seldom live long. When they are more, they go to the cells.
const MOST_APART: u32 = 64;

/// Chains of accesses by the bytes that they touch. Contracts see them as the list of chains.
#[derive(Drop)]
pub(crate) struct Overlaps<'a> {
    /// The chains.
    chains: Vec<Chain<'a>>,
    /// Of each chain, where the bytes of its accesses lie.
    hulls: Vec<Hull>,
    /// The index of each of the first chains, on the bytes of its accesses.
    cells: Cells,
    /// How many of the chains these are.
    settled: u32,
}

impl<'a> Model for Overlaps<'a> {
    ghost use Rattle.std.specs.Prelude.{List};
    ghost use Rattle.rma_rules.specs.Access.{Access};
    ghost use Rattle.rma_history.specs.inside.Overlaps.{StandOnBytes};

    ghost Value = { List (List Access) };

    ghost view = { λ overlaps. overlaps.chains.items };

    ghost invariant = { λ overlaps. StandOnBytes overlaps.chains.items overlaps.hulls.items overlaps.cells overlaps.settled };
}

impl<'a> Overlaps<'a> {
    /// No chain.
    pub(crate) fn new(alloc: Global) -> Overlaps<'a>
        ensures { result ≡ [] }
    {
        Overlaps {
            chains: Vec::new(alloc),
            hulls: Vec::new(alloc),
            cells: Cells::new(alloc),
            settled: 0,
        }
    }

    /// The chains.
    pub(crate) fn chains(&self) -> &[Chain<'a>]
        ensures { result.now ≡ self.now }
    {
        self.chains.as_slice()
    }

    /// The chains alone.
    pub(crate) fn into_chains(self) -> Vec<Chain<'a>>
        ensures { result.items ≡ self.entry }
    {
        self.chains
    }

    /// Lists the indices of all chains that touch one of these bytes, and perhaps of others.
    ///
    /// # Errors
    ///
    /// `Memory` where there is none left, or where an index does not fit 32 bits.
    pub(crate) fn meeting(
        &self,
        alloc: Global,
        bytes: &Bytes<'_>,
        met: &mut Vec<u32>,
    ) -> Result<(), Memory>
        ensures found { OnOk result ((i : ℕ) (chain : List Access) (a : Access) (b : ℤ) → slice_get self.now i ≡ Some chain → Contains chain a → HasByte a.runs b → HasByte bytes.now b → Contains met.new.items i) }
        ensures bound { OnOk result ((i : ℕ) → Contains met.new.items i → i < length self.now) }
    {
        meet_cells(alloc, &self.cells, self.settled, bytes, met)?;
        meet_hulls(self.hulls.as_slice(), self.settled, Hull::of(bytes), met)
    }

    /// Lists the indices of all chains.
    ///
    /// # Errors
    ///
    /// `Memory` where there is none left, or where an index does not fit 32 bits.
    pub(crate) fn all(&self, all: &mut Vec<u32>) -> Result<(), Memory>
        ensures { OnOk result ((i : ℕ) → Contains all.new.items i ↔ (i < length self.now)) }
    {
        let Ok(count) = u32::try_from(self.chains.len()) else {
            return Err(Memory);
        };
        all.clear();
        for index in 0..count {
            all.push(index)?;
        }
        Ok(())
    }

    /// Adds an access to the chain at an index, which it follows.
    ///
    /// # Errors
    ///
    /// `Memory` where there is none left; then all is as before.
    pub(crate) fn go_on(&mut self, index: usize, access: Access<'a>) -> Result<(), Memory>
        requires { IsHome self.old index access }
        ensures ok { OnOk result ((chain : List Access) → slice_get self.old index ≡ Some chain → self.new ≡ slice_set self.old index (chain ++ access.entry ∷ [])) }
        ensures err { OnErr result (self.new ≡ self.old) }
    {
        self.chains[index].push(access)
    }

    /// Adds a chain.
    ///
    /// # Errors
    ///
    /// `Memory` where there is none left.
    pub(crate) fn begin(&mut self, alloc: Global, chain: Chain<'a>) -> Result<(), Memory>
        ensures { OnOk result (self.new ≡ self.old ++ chain.entry ∷ []) }
    {
        let hull = hull_of(&chain);
        self.chains.reserve(1)?;
        self.hulls.reserve(1)?;
        self.chains.push_reserved(chain);
        self.hulls.push_reserved(hull);
        self.settle(alloc)
    }

    /// Where many chains do not stand on cells, puts them there.
    ///
    /// # Errors
    ///
    /// `Memory` where there is none left; the chains are the same.
    fn settle(&mut self, alloc: Global) -> Result<(), Memory>
        ensures { self.new ≡ self.old }
    {
        let Ok(count) = u32::try_from(self.chains.len()) else {
            return Err(Memory);
        };
        if count.saturating_sub(self.settled) <= MOST_APART {
            return Ok(());
        }
        'chains: for index in self.settled..count {
            stand(alloc, self.chains.as_slice(), index, &mut self.cells)?;
            self.settled = index + 1;
        }
        Ok(())
    }
}

/// Where the bytes of the accesses of a chain lie.
fn hull_of(chain: &Chain<'_>) -> Hull
    ensures { (a : Access) (b : ℤ) → Contains chain.now a → HasByte a.runs b → IsWithin result b }
{
    match chain.accesses().first() {
        Some(first) => Hull::of(&first.bytes),
        None => Hull { start: 0, end: 0 },
    }
}

/// Lists the ids on cells that stand on one of these bytes, and perhaps others, where only those below a number stand anywhere.
fn meet_cells(
    alloc: Global,
    cells: &Cells,
    settled: u32,
    bytes: &Bytes<'_>,
    met: &mut Vec<u32>,
) -> Result<(), Memory>
    requires { (id : ℕ) (b : ℤ) → StandsAt cells.now id b → id < settled }
    ensures found { OnOk result ((id : ℕ) (b : ℤ) → StandsAt cells.now id b → HasByte bytes.now b → Contains met.new.items id) }
    ensures bound { OnOk result ((id : ℕ) → Contains met.new.items id → id < settled) }
{
    if settled == 0 {
        met.clear();
        return Ok(());
    }
    let reach = reach_of(alloc, bytes)?;
    look::<Brand>(cells, &reach, met, Blank::new(1))
}

/// Lists also the indices of the hulls, from one on, that have an address in common with another.
fn meet_hulls(hulls: &[Hull], from: u32, hull: Hull, met: &mut Vec<u32>) -> Result<(), Memory>
    ensures found { OnOk result ((i : ℕ) (other : Hull) (b : ℤ) → from ≤ i → slice_get hulls.now i ≡ Some other → IsWithin other b → IsWithin hull b → Contains met.new.items i) }
    ensures still { OnOk result ((i : ℕ) → Contains met.old.items i → Contains met.new.items i) }
    ensures bound { OnOk result ((i : ℕ) → Contains met.new.items i → Contains met.old.items i ⊎ (i < length hulls.now)) }
{
    let Ok(count) = u32::try_from(hulls.len()) else {
        return Err(Memory);
    };
    'hulls: for index in from..count {
        if hulls[index as usize].meets(hull) {
            met.push(index)?;
        }
    }
    Ok(())
}

/// Puts the index of a chain on the bytes of its accesses.
fn stand(alloc: Global, chains: &[Chain<'_>], index: u32, cells: &mut Cells) -> Result<(), Memory>
    requires index { index < length chains.now }
    requires nowhere { (b : ℤ) → StandsAt cells.old index b → ⊥ }
    ensures all { OnOk result ((chain : List Access) (a : Access) (b : ℤ) → slice_get chains.now index ≡ Some chain → Contains chain a → HasByte a.runs b → StandsAt cells.new index b) }
    ensures still { OnOk result ((id : ℕ) (b : ℤ) → StandsAt cells.old id b → StandsAt cells.new id b) }
    ensures only { OnOk result ((id : ℕ) (b : ℤ) → StandsAt cells.new id b → StandsAt cells.old id b ⊎ (id ≡ index)) }
    ensures err { OnErr result (cells.new ≡ cells.old) }
{
    let Some(first) = chains[index as usize].accesses().first() else {
        return Ok(());
    };
    let reach = reach_of(alloc, &first.bytes)?;
    cells.add(index, &reach)
}

/// Lists the ids that stand on one of these bytes.
fn look<L: Ledger>(
    cells: &Cells,
    reach: &Runs,
    met: &mut Vec<u32>,
    blank: Blank,
) -> Result<(), Memory>
    requires name { blank.name ≡ L.name }
    requires parts { blank.parts ≡ L.parts }
    requires some { 0 < L.parts }
    ensures { OnOk result ((id : ℕ) → Contains met.new.items id ↔ ((b : ℤ) × StandsAt cells.now id b × HasByte reach.now b)) }
{
    let mut steps = Steps::<L>::new(blank);
    cells.meeting(reach, met, &mut steps)
}
