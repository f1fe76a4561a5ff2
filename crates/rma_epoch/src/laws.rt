//! What the definitions of this crate come to.
ghost use Rattle.std.specs.Prelude.{List};
ghost use Rattle.rma_call.specs.Call.{Call, RankCalls};
ghost use Rattle.rma_window.specs.Windows.{Window};
ghost use Rattle.rma_epoch.specs.Laws.{AccessesHaveEpochs, AccessesLieWithin, CloseComesLater, ClosesOne, EpochsAscend, FaultComesNext, LocksAreEpochs, OneReaches, PlacedAscend, SoundComeFirst};

/// The sound calls are the first ones of a rank, and the call right behind them is that of its first fault.
pub fn sound_calls_come_before_the_first_fault()
    ensures first { (windows : List Window) (calls : List Call) → SoundComeFirst windows calls }
    ensures fault { (windows : List Window) (own : RankCalls) → FaultComesNext windows own }
{}

/// The epochs ascend by the calls that open them, the call that closes one comes later, and it closes no other one.
pub fn epochs_ascend_and_are_closed_once()
    ensures ascend { (windows : List Window) (calls : List Call) → EpochsAscend windows calls }
    ensures later { (windows : List Window) (calls : List Call) → CloseComesLater windows calls }
    ensures one { (windows : List Window) (calls : List Call) → ClosesOne windows calls }
{}

/// Exactly one epoch reaches the target of a sound access, and the access stands in that one, which is listed.
pub fn one_epoch_reaches_the_target_of_a_sound_access()
    ensures { (windows : List Window) (calls : List Call) → OneReaches windows calls }
{}

/// A sound access to a target stands in exactly one epoch, and no other call does.
pub fn sound_accesses_to_a_target_have_epochs()
    ensures have { (windows : List Window) (calls : List Call) → AccessesHaveEpochs windows calls }
    ensures one { (windows : List Window) (calls : List Call) → PlacedAscend windows calls }
{}

/// A sound access comes after the call that opens its epoch, and before the one that closes it.
pub fn sound_accesses_lie_within_their_epochs()
    ensures { (windows : List Window) (calls : List Call) → AccessesLieWithin windows calls }
{}

/// The lock epochs of a rank are its epochs of a lock or of a lockall.
pub fn lock_epochs_are_those_of_locks()
    ensures { (windows : List Window) (calls : List Call) → LocksAreEpochs windows calls }
{}
