//! The epochs of the sound calls of a rank.
ghost use Rattle.std.specs.Prelude.{◌≡◌, ◌∷◌, [], None};
ghost use Rattle.rma_epoch.specs.Table.{InOrder, epoch_at};

use crate::epoch::{Epoch, Placed};
use crate::fault::EpochFault;
use crate::parts::PartTable;
use crate::placements::{Placements, epoch_of};
use std::marker::Model;

/// The epochs of the sound calls of a rank: those before its first call that stands in no epoch that allows it.
#[derive(Debug, Drop)]
pub struct EpochTable {
    /// How many calls are sound.
    sound: u32,
    /// Their epochs, and the accesses that stand in them.
    placements: Placements,
    /// What calls share that do the same.
    parts: PartTable,
}

impl Model for EpochTable {
    ghost use Rattle.rma_epoch.specs.Table.{Epochs, InOrder};

    ghost Value = { Epochs };

    ghost view = { λ table. record { sound = table.sound; epochs = table.placements.epochs.items; placed = table.placements.placed.items; parts = table.parts } };

    ghost invariant = { λ table. InOrder table.placements.placed.items };
}

impl EpochTable {
    /// The table of these.
    pub(crate) fn new(sound: u32, placements: Placements, parts: PartTable) -> EpochTable
        requires { InOrder placements.placed.items }
        ensures { result ≡ record { sound = sound; epochs = placements.epochs.items; placed = placements.placed.items; parts = parts } }
    {
        EpochTable {
            sound,
            placements,
            parts,
        }
    }

    /// How many calls are sound. They are the first ones of the rank.
    pub fn sound(&self) -> u32
        ensures { result ≡ self.now.sound }
    {
        self.sound
    }

    /// The epochs of the sound calls, in the order of their opening.
    pub fn epochs(&self) -> &[Epoch]
        ensures { result.now ≡ self.now.epochs }
    {
        self.placements.epochs()
    }

    /// The sound accesses to a target in their order, each with the index of its epoch.
    pub fn placed(&self) -> &[Placed]
        ensures placed { result.now ≡ self.now.placed }
        ensures in_order { InOrder result.now }
    {
        self.placements.placed()
    }

    /// The index of the epoch in which the call of this number stands, where it is sound and an access to a target.
    pub fn epoch_of(&self, call: u32) -> Option<u32>
        ensures { result ≡ epoch_at self.now.placed call }
    {
        epoch_of(self.placements.placed(), call)
    }

    /// The window of all calls of the rank, and the part of their target, by the numbers of what they do.
    pub fn parts(&self) -> &PartTable
        ensures { result.now ≡ self.now.parts }
    {
        &self.parts
    }
}

/// What the epochs of a rank come to.
#[derive(Debug, Drop)]
pub struct EpochOutcome {
    /// The epochs of its sound calls.
    pub table: EpochTable,
    /// The first fault, if there is one.
    pub fault: Option<EpochFault>,
}
