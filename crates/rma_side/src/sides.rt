//! The sides of the epochs of a rank, each found once.
ghost use Rattle.std.specs.Prelude.{◌≡◌, ◌<◌, ◌≤◌, ◌++◌, ◌∷◌, [], ℕ, List, length, option_map, slice_get, None, Some, IfOk, OnErr, OnOk};
ghost use Rattle.rma_base.specs.declared.rank.Rank.{Rank};
ghost use Rattle.rma_call.specs.Call.{Call};
ghost use Rattle.rma_epoch.specs.declared.epoch.Epoch.{Epoch};
ghost use Rattle.rma_match.specs.Matches.{AreMatches};
ghost use Rattle.rma_run.specs.Run.{IsRun, calls_of};
ghost use Rattle.rma_side.specs.Sides.{AreSides, Asked, asked, number_of, side_at, side_in, with_side};
ghost use Rattle.rma_window.specs.Windows.{Window};

use crate::side::{Side, side_of};
use indexmap::IndexMap;
use rma_base::{Memory, Rank};
use rma_call::RankCalls;
use rma_epoch::Epoch;
use rma_match::Matches;
use rma_window::Windows;
use std::alloc::Global;
use std::marker::Model;

/// The sides of the epochs of a rank that were asked for, by their numbers from 0, in the order in which they were first asked for.
#[derive(Drop)]
pub struct Sides {
    /// By epoch and target.
    sides: IndexMap<SideKey, Side>,
}

/// Which epoch, and at which target.
#[derive(Clone, Copy, Debug, PartialEq, Eq, Hash)]
struct SideKey {
    /// The index of the epoch, among those of the rank.
    epoch: u32,
    /// The target.
    target: Rank,
}

impl Model for Sides {
    ghost use Rattle.std.specs.Prelude.{List, length, ◌≤◌, ◌^◌};
    ghost use Rattle.rma_side.specs.Sides.{Asked};

    ghost Value = { List Asked };

    ghost use Rattle.rma_side.specs.inside.Sides.{asked_in};

    ghost view = { λ own. asked_in own.sides.entries };

    ghost invariant = { λ own. length own.sides.entries ≤ 2 ^ 32 };
}

impl Sides {
    /// No sides.
    pub fn new(alloc: Global) -> Sides
        ensures none { result ≡ [] }
        ensures sides { (calls : ℕ → List Call) (windows : List Window) (rank : Rank) (epochs : List Epoch) → AreSides calls windows rank epochs result }
    {
        Sides {
            sides: IndexMap::new(alloc),
        }
    }

    /// The number of the side of the epoch of this index, among those of the rank, at the target. Numbers that were answered
    /// before keep their sides.
    ///
    /// # Errors
    ///
    /// `Memory`: the sides are as they were.
    pub fn of(
        &mut self,
        ranks: &[RankCalls],
        matches: &Matches,
        windows: &Windows,
        rank: Rank,
        epochs: &[Epoch],
        index: u32,
        target: Rank,
    ) -> Result<u32, Memory>
        requires run { IsRun ranks.now }
        requires matches { AreMatches ranks.now matches.now }
        requires there { index < length epochs.now }
        ensures side { IfOk result (λ number. AreSides (calls_of ranks.now) windows.now rank epochs.now self.old
            → side_in self.new number ≡ side_at (calls_of ranks.now) windows.now rank epochs.now index target) }
        ensures sides { OnOk result (AreSides (calls_of ranks.now) windows.now rank epochs.now self.old → AreSides (calls_of ranks.now) windows.now rank epochs.now self.new) }
        ensures same { OnOk result ((number : ℕ) → number < length self.old → slice_get self.new number ≡ slice_get self.old number) }
        ensures grows { OnOk result (length self.old ≤ length self.new) }
        ensures within { IfOk result (λ number. number < length self.new) }
        ensures once { IfOk result (λ number. number_of self.new index target ≡ Some number) }
        ensures ok { OnOk result (option_map (λ side. with_side self.old (asked index target side)) (side_at (calls_of ranks.now) windows.now rank epochs.now index target) ≡ Some self.new) }
        ensures err { OnErr result (self.new ≡ self.old) }
    {
        if let Some(number) = self.find(index, target) {
            return Ok(number);
        }
        let epoch = &epochs[index as usize];
        let side = side_of(ranks, matches, windows, rank, epoch, target);
        self.add(index, target, side)
    }

    /// The number of the side of the epoch of this index at the target, where it was asked for.
    fn find(&self, index: u32, target: Rank) -> Option<u32>
        ensures { result ≡ number_of self.now index target }
    {
        let key = SideKey {
            epoch: index,
            target,
        };
        match self.sides.get_index_of(&key) {
            Some(number) => Some(number as u32),
            None => None,
        }
    }

    /// Adds a side that was not asked for, and answers its number.
    fn add(&mut self, index: u32, target: Rank, side: Side) -> Result<u32, Memory>
        requires { number_of self.old index target ≡ None }
        ensures number { IfOk result (λ number. number ≡ length self.old) }
        ensures ok { OnOk result (self.new ≡ self.old ++ asked index target side ∷ []) }
        ensures err { OnErr result (self.new ≡ self.old) }
    {
        let Ok(number) = u32::try_from(self.sides.len()) else {
            return Err(Memory);
        };
        let key = SideKey {
            epoch: index,
            target,
        };
        self.sides.insert(key, side)?;
        Ok(number)
    }

    /// The side of this number.
    pub fn side(&self, number: u32) -> Side
        requires { number < length self.now }
        ensures { side_in self.now number ≡ Some result }
    {
        self.sides[number as usize]
    }
}
