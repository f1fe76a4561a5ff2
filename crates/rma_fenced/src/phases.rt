//! The phases in which accesses stand.
ghost use Rattle.std.specs.Prelude.{◌≡◌, ◌↔◌, ◌++◌, [], List, IfSome, IsTrue, OnOk};
ghost use Rattle.std.specs.List.{cons_option};
ghost use Rattle.std.specs.Option.{option_and_then};
ghost use Rattle.rma_epoch.specs.Table.{AreEpochs, sound_calls};
ghost use Rattle.rma_match.specs.Matches.{AreMatches};
ghost use Rattle.rma_run.specs.Run.{calls_of};
ghost use Rattle.rma_window.specs.Windows.{Window};
ghost use Rattle.rma_fenced.specs.declared.phase.Phase.{Phase};
ghost use Rattle.rma_fenced.specs.Fenced.{HasSame, accessed_phases, is_accessed};
ghost use Rattle.rma_fenced.specs.inside.Keys.{IsListed, phase_by};

use crate::phase::{AccessKey, Phase, is_same, key_of, phase_by};
use indexmap::IndexSet;
use rma_base::{Memory, Rank};
use rma_call::{CallList, RankCalls};
use rma_epoch::{Epoch, EpochTable};
use rma_match::Matches;
use std::alloc::Global;
use std::marker::Model;

/// The phases of targets in which some access to the target stands, each once.
#[derive(Drop)]
pub struct AccessedPhases {
    /// In the order in which they were found.
    phases: IndexSet<Phase>,
}

impl Model for AccessedPhases {
    ghost use Rattle.std.specs.Prelude.{List};
    ghost use Rattle.rma_fenced.specs.declared.phase.Phase.{Phase};

    ghost Value = { List Phase };

    ghost view = { λ own. own.phases.keys };
}

impl AccessedPhases {
    /// No phases.
    pub fn new(alloc: Global) -> AccessedPhases
        ensures { result ≡ [] }
    {
        AccessedPhases {
            phases: IndexSet::new(alloc),
        }
    }

    /// Adds the phases in which the sound accesses of a rank stand, by its calls and their epochs. An access of no bytes counts. The
    /// i-th log is that of rank i.
    ///
    /// # Errors
    ///
    /// `Memory`, and then nothing is said of what is listed.
    pub fn add(
        &mut self,
        ranks: &[RankCalls],
        matches: &Matches,
        rank: Rank,
        calls: &CallList,
        table: &EpochTable,
    ) -> Result<(), Memory>
        requires matches { AreMatches ranks.now matches.now }
        requires table { (windows : List Window) × AreEpochs windows calls.now table.now }
        ensures { OnOk result ((windows : List Window) (listed : List Phase) → AreEpochs windows calls.now table.now → HasSame self.old listed
            → HasSame self.new (listed ++ accessed_phases (calls_of ranks.now) windows rank (sound_calls windows calls.now.calls))) }
    {
        let sound = table.sound();
        let epochs = table.epochs();
        let mut last = None;
        for placed in table.placed() {
            let key = key_of(calls, sound, epochs, placed);
            self.add_access(ranks, matches, rank, epochs, last, key)?;
            last = key;
        }
        Ok(())
    }

    /// Adds the phase in which an access stands, by its key and that of the access before.
    fn add_access(
        &mut self,
        ranks: &[RankCalls],
        matches: &Matches,
        rank: Rank,
        epochs: &[Epoch],
        last: Option<AccessKey>,
        key: Option<AccessKey>,
    ) -> Result<(), Memory>
        requires matches { AreMatches ranks.now matches.now }
        requires last { IfSome last (λ key. IsListed self.old (phase_by (calls_of ranks.now) rank epochs.now key)) }
        ensures same { OnOk result (HasSame self.new (self.old ++ cons_option (option_and_then (phase_by (calls_of ranks.now) rank epochs.now) key) [])) }
        ensures last { OnOk result (IfSome key (λ key. IsListed self.new (phase_by (calls_of ranks.now) rank epochs.now key))) }
    {
        let Some(key) = key else {
            return Ok(());
        };
        if is_same(last, key) {
            return Ok(());
        }
        self.add_phase(phase_by(ranks, matches, rank, epochs, key))
    }

    /// Adds a phase, if there is one.
    fn add_phase(&mut self, phase: Option<Phase>) -> Result<(), Memory>
        ensures same { OnOk result (HasSame self.new (self.old ++ cons_option phase [])) }
        ensures listed { OnOk result (IsListed self.new phase) }
    {
        match phase {
            Some(phase) => {
                self.phases.insert(phase)?;
                Ok(())
            }
            None => Ok(()),
        }
    }

    /// Whether an access to the rank stands in the phase that its fence of this number opens.
    pub fn has(&self, rank: Rank, fence: u32) -> bool
        ensures { result ≡ is_accessed self.now rank.0 fence }
    {
        self.phases.contains(&Phase {
            target: rank,
            fence,
        })
    }

    /// Whether there are none.
    pub fn is_empty(&self) -> bool
        ensures { IsTrue result ↔ (self.now ≡ []) }
    {
        self.phases.is_empty()
    }
}
