//! The accesses of a run, taken one by one.
ghost use Rattle.std.specs.Prelude.{◌≡◌, ◌<◌, ◌++◌, ℕ, List, [], ◌∷◌, Contains, length, slice_get, slice_index, Some, map, All, IfOk, IfSome, OnOk};
ghost use Rattle.std.specs.List.{cons_option};
ghost use Rattle.rma_call.specs.Call.{Call, RankCalls};
ghost use Rattle.rma_clock.specs.Reached.{points_of};
ghost use Rattle.rma_link.specs.declared.links.Links.{Links};
ghost use Rattle.rma_run.specs.Run.{lens_of};
ghost use Rattle.rma_rules.specs.Access.{Access};
ghost use Rattle.rma_span.specs.Span.{accesses, accesses_at, origin_of};
ghost use Rattle.rma_accesses.specs.inside.Kept.{IsAccessesOf, rank_of};
ghost use Rattle.rma_history.specs.History.{IsToCome};
ghost use Rattle.rma_races.specs.inside.Taking.{AreTaken, HasTaken, IsBegun, IsFurther, IsKnown, IsTaking, IsThrough, numbers};

use rma_accesses::RankAccesses;
use rma_base::Memory;
use rma_clock::Clocks;
use rma_finding::FoundRace;
use rma_history::{MemoryHistory, ModelledWindows};
use rma_rules::{Access, Role, Spans};
use std::alloc::Global;

/// The roles in which a call may make an access, in their order.
const ROLES: [Role; 5] = [
    Role::Local,
    Role::Target,
    Role::Origin,
    Role::Result,
    Role::Compare,
];

/// What was taken of the accesses of a run.
#[derive(Drop)]
pub(crate) struct Taking<'a> {
    /// The accesses to the memory of each rank that later ones may race with.
    memories: Vec<MemoryHistory<'a>>,
    /// Of each rank, how many of its calls that access memory were taken.
    taken: Vec<usize>,
    /// Of each rank, the number of the next such call, if there is one.
    next: Vec<Option<u32>>,
    /// The races among what was taken.
    pub(crate) found: Vec<FoundRace>,
}

impl<'a> Taking<'a> {
    /// Nothing yet of the accesses of these ranks.
    ///
    /// # Errors
    ///
    /// `Memory` where there is none left.
    pub(crate) fn new(alloc: Global, ranks: &[RankAccesses<'_, '_>]) -> Result<Taking<'a>, Memory>
        requires { (run : List RankCalls) × All (IsAccessesOf run) ranks.now }
        ensures begun { IfOk result (λ taking. (run : List RankCalls) → map rank_of ranks.now ≡ run → All (IsAccessesOf run) ranks.now → IsBegun run taking) }
        ensures none { IfOk result (λ taking. (taking.found.items ≡ []) × ((i : ℕ) → slice_index taking.taken.items i ≡ 0)) }
        ensures empty { IfOk result (λ taking. (i : ℕ) (history : List Access) → slice_get taking.memories.items i ≡ Some history → history ≡ []) }
    {
        let mut taking = Taking {
            memories: Vec::new(alloc),
            taken: Vec::new(alloc),
            next: Vec::new(alloc),
            found: Vec::new(alloc),
        };
        for own in ranks {
            taking.memories.push(MemoryHistory::new(alloc))?;
            taking.taken.push(0)?;
            taking.next.push(next_call(own, 0))?;
        }
        Ok(taking)
    }

    /// Takes the accesses of a rank that are left, up to those of its call of a number.
    ///
    /// # Errors
    ///
    /// `Memory` where there is none left.
    pub(crate) fn take_through<C: Clocks>(
        &mut self,
        alloc: Global,
        rank: usize,
        own: &'a RankAccesses<'_, '_>,
        call: u32,
        lists: &Spans,
        windows: &ModelledWindows<'_>,
        clocks: &C,
    ) -> Result<(), Memory>
        requires { (ranks : List RankCalls) × (links : Links) × IsKnown ranks windows.now lists.now × IsAccessesOf ranks own.now × (slice_get ranks rank ≡ Some (rank_of own.now))
            × C.are_of clocks.now (points_of (lens_of ranks)) links × IsTaking links windows.now lists.now ranks self.old }
        ensures taking { OnOk result ((ranks : List RankCalls) (links : Links) → IsKnown ranks windows.now lists.now → IsAccessesOf ranks own.now → slice_get ranks rank ≡ Some (rank_of own.now)
            → C.are_of clocks.now (points_of (lens_of ranks)) links → IsTaking links windows.now lists.now ranks self.old → IsTaking links windows.now lists.now ranks self.new) }
        ensures through { OnOk result ((ranks : List RankCalls) → IsAccessesOf ranks own.now → slice_get ranks rank ≡ Some (rank_of own.now) → IsThrough ranks self.new.taken.items rank call) }
        ensures further { OnOk result (IsFurther self.old.taken.items self.new.taken.items) }
    {
        for index in self.taken[rank]..own.len() {
            if own.call(index) > call {
                return Ok(());
            }
            self.take_call(alloc, own, index, lists, windows, clocks)?;
            self.taken[rank] = index + 1;
            self.next[rank] = next_call(own, index + 1);
        }
        Ok(())
    }

    /// Takes the accesses of the next call of a rank, the one at an index among those that access memory.
    fn take_call<C: Clocks>(
        &mut self,
        alloc: Global,
        own: &'a RankAccesses<'_, '_>,
        index: usize,
        lists: &Spans,
        windows: &ModelledWindows<'_>,
        clocks: &C,
    ) -> Result<(), Memory>
        requires { (ranks : List RankCalls) × (links : Links) × (seen : List Access) × IsKnown ranks windows.now lists.now × IsAccessesOf ranks own.now × C.are_of clocks.now (points_of (lens_of ranks)) links
            × AreTaken links windows.now lists.now ranks seen self.old × Contains ranks (rank_of own.now) × (slice_get self.old.taken.items (rank_of own.now).rank.0 ≡ Some index) × index < length (numbers ranks (rank_of own.now)) }
        ensures taken { OnOk result ((ranks : List RankCalls) (links : Links) (seen : List Access) (number : ℕ) → IsKnown ranks windows.now lists.now → IsAccessesOf ranks own.now → C.are_of clocks.now (points_of (lens_of ranks)) links
            → AreTaken links windows.now lists.now ranks seen self.old → Contains ranks (rank_of own.now) → slice_get self.old.taken.items (rank_of own.now).rank.0 ≡ Some index → slice_get (numbers ranks (rank_of own.now)) index ≡ Some number
            → AreTaken links windows.now lists.now ranks (seen ++ accesses_at (origin_of ranks (rank_of own.now)) number) self.new) }
        ensures same { (self.new.taken ≡ self.old.taken) × (self.new.next ≡ self.old.next) }
    {
        for role in ROLES {
            self.take_some(alloc, own.access(index, role), lists, windows, clocks)?;
        }
        Ok(())
    }

    /// Takes an access of the run that is still to come, if there is one.
    fn take_some<C: Clocks>(
        &mut self,
        alloc: Global,
        access: Option<Access<'a>>,
        lists: &Spans,
        windows: &ModelledWindows<'_>,
        clocks: &C,
    ) -> Result<(), Memory>
        requires { (ranks : List RankCalls) × (links : Links) × (seen : List Access) × IsKnown ranks windows.now lists.now × C.are_of clocks.now (points_of (lens_of ranks)) links
            × AreTaken links windows.now lists.now ranks seen self.old × IfSome access (Contains (accesses ranks)) × IfSome access (IsToCome self.old.next.items) }
        ensures taken { OnOk result ((ranks : List RankCalls) (links : Links) (seen : List Access) → IsKnown ranks windows.now lists.now → C.are_of clocks.now (points_of (lens_of ranks)) links
            → AreTaken links windows.now lists.now ranks seen self.old → IfSome access.entry (Contains (accesses ranks)) → IfSome access.entry (IsToCome self.old.next.items) → AreTaken links windows.now lists.now ranks (seen ++ cons_option access.entry []) self.new) }
        ensures same { (self.new.taken ≡ self.old.taken) × (self.new.next ≡ self.old.next) }
    {
        match access {
            Some(access) => self.take_access(alloc, access, lists, windows, clocks),
            None => Ok(()),
        }
    }

    /// Takes an access of the run that is still to come.
    fn take_access<C: Clocks>(
        &mut self,
        alloc: Global,
        access: Access<'a>,
        lists: &Spans,
        windows: &ModelledWindows<'_>,
        clocks: &C,
    ) -> Result<(), Memory>
        requires { (ranks : List RankCalls) × (links : Links) × (seen : List Access) × IsKnown ranks windows.now lists.now × C.are_of clocks.now (points_of (lens_of ranks)) links
            × AreTaken links windows.now lists.now ranks seen self.old × Contains (accesses ranks) access × IsToCome self.old.next.items access }
        ensures taken { OnOk result ((ranks : List RankCalls) (links : Links) (seen : List Access) → IsKnown ranks windows.now lists.now → C.are_of clocks.now (points_of (lens_of ranks)) links
            → AreTaken links windows.now lists.now ranks seen self.old → Contains (accesses ranks) access.entry → IsToCome self.old.next.items access.entry → AreTaken links windows.now lists.now ranks (seen ++ access.entry ∷ []) self.new) }
        ensures same { (self.new.taken ≡ self.old.taken) × (self.new.next ≡ self.old.next) }
    {
        let memory = &mut self.memories[access.memory.0 as usize];
        memory.retire(alloc, &self.next, lists, windows.windows(), clocks)?;
        memory.take(alloc, access, lists, windows, clocks, &mut self.found)
    }
}

/// The number of the call at an index among those of a rank that access memory, if there is one.
fn next_call(own: &RankAccesses<'_, '_>, index: usize) -> Option<u32>
    requires { (ranks : List RankCalls) × IsAccessesOf ranks own.now }
    ensures { (ranks : List RankCalls) → IsAccessesOf ranks own.now → result ≡ slice_get (numbers ranks (rank_of own.now)) index }
{
    if index < own.len() {
        Some(own.call(index))
    } else {
        None
    }
}
