//! A walk on its way.
ghost use Rattle.std.specs.Prelude.{◌≡◌, ◌<◌, ◌≤◌, ◌+◌, ◌*◌, ◌^◌, ◌++◌, ◌⊎◌, [], ◌∷◌, true, false, length, slice_index, slice_index_or, slice_set, is_some, All, IfOk, IfSome, IfNone, OnOk};
ghost use Rattle.rma_link.specs.Point.{IsPoint};
ghost use Rattle.rma_walk.specs.inside.Run.{IsRun, IsPassed, IsReady, IsBlocked};
ghost use Rattle.rma_walk.specs.declared.source.Source.TheVariants.{Meet};
ghost use Rattle.rma_walk.specs.inside.Front.{HasAdvanced};
ghost use Rattle.rma_walk.specs.inside.Pending.{IsSourcePassed};
ghost use Rattle.rma_walk.specs.inside.Search.{IsWalk, IsAhead, IsSearch, IsIdle, work};

use crate::front::{Front, is_passed};
use crate::pending::Pending;
use crate::run::Run;
use rma_base::{Memory, Point, Sequence};
use std::alloc::Global;

/// A walk on its way.
#[derive(Drop)]
pub(crate) struct Search {
    /// The points that it is past.
    pub(crate) front: Front,
    /// What returns still wait for.
    pub(crate) pending: Pending,
    /// The ranks that wait for the one that is followed, each for the next one.
    pub(crate) waiting: Vec<u32>,
    /// By rank, whether it may be followed: it does not wait, and is not stopped.
    pub(crate) free: Vec<bool>,
}

impl Search {
    /// A walk that is past no point, and keeps its order in an empty list, where it gets one.
    pub(crate) fn new(
        alloc: Global,
        run: &Run<'_>,
        order: Option<Sequence<Point>>,
    ) -> Result<Search, Memory>
        requires run { IsRun run.now.lens.now run.now.links.now }
        requires order { IfSome order (λ list. list ≡ []) }
        ensures idle { IfOk result (λ search. IsIdle run.now.lens.now run.now.links.now search 0) }
        ensures keeps { IfOk result (λ search. is_some search.front.order ≡ is_some order) }
    {
        let next = vec![in alloc; 0; run.lens.len()]?;
        let free = vec![in alloc; true; run.lens.len()]?;
        let pending = Pending::new(alloc, run)?;
        Ok(Search {
            front: Front { next, order },
            pending,
            waiting: Vec::new(alloc),
            free,
        })
    }

    /// Passes all points that can be passed.
    pub(crate) fn settle_all(&mut self, run: &Run<'_>) -> Result<(), Memory>
        requires { IsIdle run.now.lens.now run.now.links.now self.old 0 }
        ensures idle { OnOk result (IsIdle run.now.lens.now run.now.links.now self.new (length run.now.lens.now)) }
        ensures keeps { OnOk result (is_some self.new.front.order ≡ is_some self.old.front.order) }
    {
        for rank in 0..run.lens.len() as u32 {
            self.settle(run, rank)?;
        }
        Ok(())
    }

    /// Passes points of this rank, and of those that it waits for, until it is past its last call or stopped.
    fn settle(&mut self, run: &Run<'_>, rank: u32) -> Result<(), Memory>
        requires idle { IsIdle run.now.lens.now run.now.links.now self.old rank }
        requires rank { rank < length run.now.lens.now }
        ensures idle { OnOk result (IsIdle run.now.lens.now run.now.links.now self.new (rank + 1)) }
        ensures keeps { OnOk result (is_some self.new.front.order ≡ is_some self.old.front.order) }
    {
        let mut current = rank;
        while self.has_next(run, current) {
            current = self.step(run, rank, current)?;
        }
        Ok(())
    }

    /// Whether the rank has a point to pass, and may be followed.
    #[inline]
    fn has_next(&self, run: &Run<'_>, rank: u32) -> bool
        requires next { rank < length self.now.front.next.items }
        requires free { rank < length self.now.free.items }
        requires calls { slice_index run.now.lens.now rank < 2 ^ 31 }
        requires rank { rank < length run.now.lens.now }
        ensures yes { result ≡ true → (slice_index self.now.front.next.items rank < 2 * slice_index run.now.lens.now rank) × (slice_index_or self.now.free.items rank true ≡ true) }
        ensures no { result ≡ false → (2 * slice_index run.now.lens.now rank ≤ slice_index self.now.front.next.items rank) ⊎ (slice_index_or self.now.free.items rank true ≡ false) }
    {
        self.front.next[rank as usize] < 2 * run.lens[rank as usize] && self.free[rank as usize]
    }

    /// Passes the next point of the rank that is followed for another one, or waits. Answers which rank is followed then.
    #[inline]
    fn step(&mut self, run: &Run<'_>, rank: u32, current: u32) -> Result<u32, Memory>
        requires search { IsSearch run.now.lens.now run.now.links.now self.old rank current }
        requires next { slice_index self.old.front.next.items current < 2 * slice_index run.now.lens.now current }
        requires free { slice_index_or self.old.free.items current true ≡ true }
        ensures search { IfOk result (λ to. IsSearch run.now.lens.now run.now.links.now self.new rank to) }
        ensures less { OnOk result (work run.now.lens.now self.new.front.next.items self.new.free.items < work run.now.lens.now self.old.front.next.items self.old.free.items) }
        ensures keeps { OnOk result (is_some self.new.front.order ≡ is_some self.old.front.order) }
    {
        match self.blocker(run, current)? {
            Some(other) => self.wait(rank, current, other),
            None => self.pass(run, current),
        }
    }

    /// A rank that has to pass a point before the rank that is followed can pass its next one, if there is one. Other members of
    /// a meet that it waits for are passed up to their entries first, as far as nothing blocks them.
    #[inline]
    fn blocker(&mut self, run: &Run<'_>, current: u32) -> Result<Option<u32>, Memory>
        requires walk { IsWalk run.now.lens.now run.now.links.now self.old }
        requires next { slice_index self.old.front.next.items current < 2 * slice_index run.now.lens.now current }
        ensures ahead { OnOk result (IsAhead run.now.lens.now run.now.links.now current self.old self.new) }
        ensures none { IfOk result (λ blocker. IfNone blocker (IsReady run.now.links.now self.new.front.next.items current)) }
        ensures some { IfOk result (λ blocker. IfSome blocker (IsBlocked run.now.lens.now run.now.links.now self.new.front.next.items current)) }
    {
        if self.gather(run, current)? {
            return Ok(None);
        }
        Ok(self.pending.blocker(run, &self.front.next, current))
    }

    /// Where the rank is to return from a meet, and waits for nothing else, other members are passed up to their entries, as far
    /// as nothing blocks them. Answers whether nothing blocks the rank then.
    #[inline]
    fn gather(&mut self, run: &Run<'_>, current: u32) -> Result<bool, Memory>
        requires walk { IsWalk run.now.lens.now run.now.links.now self.old }
        requires next { slice_index self.old.front.next.items current < 2 * slice_index run.now.lens.now current }
        ensures ahead { OnOk result (IsAhead run.now.lens.now run.now.links.now current self.old self.new) }
        ensures ready { IfOk result (λ ready. ready ≡ true → IsReady run.now.links.now self.new.front.next.items current) }
    {
        match self.pending.meet(run, &self.front.next, current) {
            Some(index) => self.gather_members(run, current, index),
            None => Ok(false),
        }
    }

    /// Passes the entries of the members of the meet, up to the first one that is blocked. Answers whether all are passed.
    ///
    /// It stands apart, since messages take longer where it is a part of each step.
    #[inline(never)]
    fn gather_members(&mut self, run: &Run<'_>, current: u32, index: usize) -> Result<bool, Memory>
        requires walk { IsWalk run.now.lens.now run.now.links.now self.old }
        requires index { index < length run.now.links.now.meets }
        ensures ahead { OnOk result (IsAhead run.now.lens.now run.now.links.now current self.old self.new) }
        ensures inboxes { self.new.pending.inboxes ≡ self.old.pending.inboxes }
        ensures passed { IfOk result (λ all. all ≡ true → IsSourcePassed run.now.links.now self.new.front.next.items (Meet index)) }
    {
        let members = run.links.meets.get(index).calls.as_slice();
        for member in self.pending.known[index]..members.len() as u32 {
            if !self.reach(run, current, members[member as usize].entry())? {
                return Ok(false);
            }
            self.pending.known[index] = member + 1;
        }
        Ok(true)
    }

    /// Passes points of a rank up to this one, as long as nothing blocks them. Answers whether it is passed. The rank that is
    /// followed stays where it is.
    #[inline]
    fn reach(&mut self, run: &Run<'_>, current: u32, point: Point) -> Result<bool, Memory>
        requires walk { IsWalk run.now.lens.now run.now.links.now self.old }
        requires point { IsPoint run.now.lens.now point }
        ensures ahead { OnOk result (IsAhead run.now.lens.now run.now.links.now current self.old self.new) }
        ensures pending { self.new.pending ≡ self.old.pending }
        ensures passed { IfOk result (λ passed. passed ≡ true → IsPassed self.new.front.next.items point) }
    {
        let rank = point.rank.0;
        while !is_passed(&self.front.next, point) {
            if rank == current || !self.is_ready(run, rank) {
                return Ok(false);
            }
            self.front.advance(run, rank)?;
        }
        Ok(true)
    }

    /// Whether the rank may be followed, and nothing blocks its next point.
    #[inline]
    fn is_ready(&self, run: &Run<'_>, rank: u32) -> bool
        requires walk { IsWalk run.now.lens.now run.now.links.now self.now }
        requires next { slice_index self.now.front.next.items rank < 2 * slice_index run.now.lens.now rank }
        ensures free { result ≡ true → slice_index_or self.now.free.items rank true ≡ true }
        ensures ready { result ≡ true → IsReady run.now.links.now self.now.front.next.items rank }
    {
        self.free[rank as usize] && self.pending.is_ready(run, &self.front.next, rank)
    }

    /// The rank that is followed waits for another one. That one is followed next, if it may be; else all that wait are
    /// stopped.
    #[inline]
    fn wait(&mut self, rank: u32, current: u32, other: u32) -> Result<u32, Memory>
        requires current { current < length self.old.free.items }
        requires other { other < length self.old.free.items }
        ensures front { self.new.front ≡ self.old.front }
        ensures pending { self.new.pending ≡ self.old.pending }
        ensures free { OnOk result (self.new.free.items ≡ slice_set self.old.free.items current false) }
        ensures follows { IfOk result (λ to. slice_index_or (slice_set self.old.free.items current false) other true ≡ true → (self.new.waiting.items ≡ self.old.waiting.items ++ current ∷ []) × (to ≡ other)) }
        ensures stops { IfOk result (λ to. slice_index_or (slice_set self.old.free.items current false) other true ≡ false → (self.new.waiting.items ≡ []) × (to ≡ rank)) }
    {
        self.waiting.push(current)?;
        self.free[current as usize] = false;
        if self.free[other as usize] {
            Ok(other)
        } else {
            self.waiting.clear();
            Ok(rank)
        }
    }

    /// The rank that is followed advances, and the one that waited for it last is followed again.
    #[inline]
    fn pass(&mut self, run: &Run<'_>, current: u32) -> Result<u32, Memory>
        requires run { IsRun run.now.lens.now run.now.links.now }
        requires size { length self.old.front.next.items ≡ length run.now.lens.now }
        requires next { slice_index self.old.front.next.items current < 2 * slice_index run.now.lens.now current }
        requires ready { IsReady run.now.links.now self.old.front.next.items current }
        requires waiting { All (λ w. w < length self.old.free.items) self.old.waiting.items }
        ensures advanced { OnOk result (HasAdvanced run.now.lens.now run.now.links.now current self.old.front self.new.front) }
        ensures pending { self.new.pending ≡ self.old.pending }
        ensures follows { IfOk result (λ to. ((self.old.waiting.items ≡ []) × (self.new.waiting.items ≡ []) × (to ≡ current) × (self.new.free.items ≡ self.old.free.items))
            ⊎ ((self.old.waiting.items ≡ self.new.waiting.items ++ to ∷ []) × (self.new.free.items ≡ slice_set self.old.free.items to true))) }
    {
        self.front.advance(run, current)?;
        match self.waiting.pop() {
            Some(below) => {
                self.free[below as usize] = true;
                Ok(below)
            }
            None => Ok(current),
        }
    }
}
