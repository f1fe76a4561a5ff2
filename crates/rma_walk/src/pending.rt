//! What the returns of all ranks still wait for.
ghost use Rattle.std.specs.Prelude.{◌≡◌, ◌<◌, ◌*◌, ◌≤◌, ◌^◌, ℕ, List, [], true, length, slice_index, slice_index_or, replicate, map, All, Contains, IfOk, OnOk, IfSome, IfNone};
ghost use Rattle.std.specs.List.{AllWithin};
ghost use Rattle.rma_link.specs.declared.meet.Member.{Member};
ghost use Rattle.rma_link.specs.Point.{entry};
ghost use Rattle.rma_link.specs.Within.{AreWithin};
ghost use Rattle.rma_walk.specs.declared.source.Source.{Source};
ghost use Rattle.rma_walk.specs.declared.source.Source.TheVariants.{Meet};
ghost use Rattle.rma_walk.specs.inside.Run.{IsRun, AreReadable, IsPassed, IsReady, IsBlocked};
ghost use Rattle.rma_walk.specs.Source.{AreSources, IsEdgeSource, IsMemberSource, IsMeetSource, sources_of};
ghost use Rattle.rma_walk.specs.inside.Pending.{IsSource, IsSourcePassed, IsMissing, IsKnown, IsReduced, AreAdded, IsPending, IsAlone, no_meet};

use crate::front::is_passed;
use crate::inbox::Inbox;
use crate::run::Run;
use crate::source::Source;
use crate::waits::Waits;
use rma_base::Memory;
use rma_link::{Links, Member};
use std::alloc::Global;

/// What returns still wait for.
#[derive(Drop)]
pub(crate) struct Pending {
    /// By rank, the sources of its calls that are not known to be passed.
    pub(crate) inboxes: Vec<Inbox>,
    /// By meet, how many of its first members are known to be entered.
    pub(crate) known: Vec<u32>,
}

impl Pending {
    /// All links of a run, where no point is passed.
    pub(crate) fn new(alloc: Global, run: &Run<'_>) -> Result<Pending, Memory>
        requires { IsRun run.now.lens.now run.now.links.now }
        ensures { IfOk result (λ pending. IsPending run.now.lens.now run.now.links.now (replicate (length run.now.lens.now) 0) pending) }
    {
        let inboxes = inboxes_of(alloc, run.lens, run.links)?;
        let known = vec![in alloc; 0; run.links.meets.len()]?;
        Ok(Pending { inboxes, known })
    }

    /// A rank that has to pass a point before this rank can pass its next one, if there is one.
    pub(crate) fn blocker(&mut self, run: &Run<'_>, next: &[u32], rank: u32) -> Option<u32>
        requires run { IsRun run.now.lens.now run.now.links.now }
        requires pending { IsPending run.now.lens.now run.now.links.now next.now self.old }
        requires size { length next.now ≡ length run.now.lens.now }
        requires rank { slice_index next.now rank < 2 * slice_index run.now.lens.now rank }
        ensures pending { IsPending run.now.lens.now run.now.links.now next.now self.new }
        ensures none { IfNone result (IsReady run.now.links.now next.now rank) }
        ensures some { IfSome result (IsBlocked run.now.lens.now run.now.links.now next.now rank) }
    {
        let pos = next[rank as usize];
        if pos % 2 == 0 {
            return None;
        }
        let inbox = &mut self.inboxes[rank as usize];
        blocker(inbox, &mut self.known, run.links, next, pos / 2)
    }

    /// Whether nothing is known to block the next point of the rank. A return that waits for more than one source is left to
    /// `blocker`.
    #[inline]
    pub(crate) fn is_ready(&self, run: &Run<'_>, next: &[u32], rank: u32) -> bool
        requires run { IsRun run.now.lens.now run.now.links.now }
        requires pending { IsPending run.now.lens.now run.now.links.now next.now self.now }
        requires size { length next.now ≡ length run.now.lens.now }
        requires rank { slice_index next.now rank < 2 * slice_index run.now.lens.now rank }
        ensures { result ≡ true → IsReady run.now.links.now next.now rank }
    {
        let pos = next[rank as usize];
        if pos % 2 == 0 {
            return true;
        }
        match self.inboxes[rank as usize].waits(pos / 2) {
            Waits::Nothing => true,
            Waits::Meet(index) => self.is_gathered(run.links, index),
            Waits::Arrivals(_) => false,
        }
    }

    /// Whether all members of the meet are known to be entered.
    #[inline]
    fn is_gathered(&self, links: &Links, index: u32) -> bool
        requires index { index < length links.now.meets }
        requires known { index < length self.now.known.items }
        ensures { (next : List ℕ) → IsKnown links.now next self.now.known.items → result ≡ true → IsSourcePassed links.now next (Meet index) }
    {
        let index = index as usize;
        self.known[index] as usize == links.meets.get(index).calls.len()
    }

    /// The meet that the next point of the rank waits for, where it waits for that alone.
    #[inline]
    pub(crate) fn meet(&self, run: &Run<'_>, next: &[u32], rank: u32) -> Option<usize>
        requires run { IsRun run.now.lens.now run.now.links.now }
        requires pending { IsPending run.now.lens.now run.now.links.now next.now self.now }
        requires size { length next.now ≡ length run.now.lens.now }
        requires rank { slice_index next.now rank < 2 * slice_index run.now.lens.now rank }
        ensures meet { IfSome result (λ index. index < length run.now.links.now.meets) }
        ensures alone { IfSome result (IsAlone next.now self.now.inboxes.items rank) }
    {
        let pos = next[rank as usize];
        if pos % 2 == 0 {
            return None;
        }
        match self.inboxes[rank as usize].waits(pos / 2) {
            Waits::Meet(index) => Some(index as usize),
            _ => None,
        }
    }
}

/// A rank that has to pass a point before the owner of the inbox can return from the call. Sources that are passed go.
fn blocker(
    inbox: &mut Inbox,
    known: &mut Vec<u32>,
    links: &Links,
    next: &[u32],
    call: u32,
) -> Option<u32>
    requires readable { AreReadable (length next.now) links.now }
    requires known { IsKnown links.now next.now known.old.items }
    requires call { call < length inbox.old }
    requires sources { All (IsSource (length next.now) links.now) (sources_of inbox.old call) }
    ensures known { IsKnown links.now next.now known.new.items }
    ensures reduced { IsReduced links.now next.now inbox.old inbox.new }
    ensures none { IfNone result (sources_of inbox.new call ≡ []) }
    ensures some { IfSome result (λ other. (source : Source) × Contains (sources_of inbox.new call) source × IsMissing links.now next.now source other) }
{
    while let Some(source) = inbox.first(call) {
        let missing = missing(known, links, next, source);
        if missing.is_some() {
            return missing;
        }
        inbox.drop_first(call);
    }
    None
}

/// The rank of an entry of the source that is not passed, if there is one.
#[inline]
fn missing(known: &mut Vec<u32>, links: &Links, next: &[u32], source: Source) -> Option<u32>
    requires readable { AreReadable (length next.now) links.now }
    requires known { IsKnown links.now next.now known.old.items }
    requires source { IsSource (length next.now) links.now source }
    ensures known { IsKnown links.now next.now known.new.items }
    ensures none { IfNone result (IsSourcePassed links.now next.now source) }
    ensures some { IfSome result (IsMissing links.now next.now source) }
{
    match source {
        Source::Entry(point) => {
            if is_passed(next, point) {
                None
            } else {
                Some(point.rank.0)
            }
        }
        Source::Meet(index) => {
            let members = links.meets.get(index).calls.as_slice();
            let first = first_missing(members, known[index] as usize, next);
            known[index] = first as u32;
            if first == members.len() {
                None
            } else {
                Some(members[first].rank.0)
            }
        }
    }
}

/// The index of the first member from this one on that is not entered, or the number of members.
fn first_missing(members: &[Member], from: usize, next: &[u32]) -> usize
    requires from { from ≤ length members.now }
    requires members { All (λ m. (m.rank.0 < length next.now) × (m.call < 2 ^ 31)) members.now }
    requires entered { AllWithin (λ m. IsPassed next.now (entry m.rank m.call)) members.now 0 from }
    ensures within { result ≤ length members.now }
    ensures entered { AllWithin (λ m. IsPassed next.now (entry m.rank m.call)) members.now 0 result }
    ensures missing { result < length members.now → (d : Member) → IsPassed next.now (entry (slice_index_or members.now result d).rank (slice_index_or members.now result d).call) → ⊥ }
{
    for index in from..members.len() {
        if !is_passed(next, members[index].entry()) {
            return index;
        }
    }
    members.len()
}

/// By rank, what the returns of its calls wait for.
///
/// # Errors
///
/// `Memory` where there is none left.
pub fn inboxes_of(alloc: Global, lens: &[u32], links: &Links) -> Result<Vec<Inbox>, Memory>
    requires { AreWithin lens.now links.now }
    ensures { IfOk result (λ inboxes. AreSources lens.now links.now inboxes.items) }
{
    let run = Run { lens, links };
    let mut inboxes = empty_inboxes(alloc, lens)?;
    add_edges(&mut inboxes, &run)?;
    add_meets(&mut inboxes, &run)?;
    Ok(inboxes)
}

/// An inbox for each rank, without a source.
fn empty_inboxes(alloc: Global, lens: &[u32]) -> Result<Vec<Inbox>, Memory>
    ensures { IfOk result (λ inboxes. inboxes.items ≡ map (λ len. replicate len []) lens.now) }
{
    let mut inboxes = Vec::new(alloc);
    for len in lens {
        inboxes.push(Inbox::new(alloc, *len)?)?;
    }
    Ok(inboxes)
}

/// Adds the sources that edges are.
fn add_edges(inboxes: &mut Vec<Inbox>, run: &Run<'_>) -> Result<(), Memory>
    requires size { length inboxes.old.items ≡ length run.now.lens.now }
    requires sizes { (rank : ℕ) → length (slice_index_or inboxes.old.items rank []) ≡ slice_index run.now.lens.now rank }
    requires within { AreWithin run.now.lens.now run.now.links.now }
    ensures { OnOk result (AreAdded (IsEdgeSource run.now.links.now.edges) inboxes.old.items inboxes.new.items) }
{
    let edges = run.links.edges.as_slice();
    for edge in edges {
        let inbox = &mut inboxes[edge.to.rank.0 as usize];
        inbox.push(edge.to.pos / 2, Source::Entry(edge.from))?;
    }
    Ok(())
}

/// Adds the sources that meets are.
fn add_meets(inboxes: &mut Vec<Inbox>, run: &Run<'_>) -> Result<(), Memory>
    requires size { length inboxes.old.items ≡ length run.now.lens.now }
    requires sizes { (rank : ℕ) → length (slice_index_or inboxes.old.items rank []) ≡ slice_index run.now.lens.now rank }
    requires within { AreWithin run.now.lens.now run.now.links.now }
    ensures { OnOk result (AreAdded (IsMeetSource run.now.links.now.meets) inboxes.old.items inboxes.new.items) }
{
    for index in 0..run.links.meets.len() {
        add_members(inboxes, run, index)?;
    }
    Ok(())
}

/// Adds the meet at the index as a source of each of its members.
fn add_members(inboxes: &mut Vec<Inbox>, run: &Run<'_>, index: usize) -> Result<(), Memory>
    requires size { length inboxes.old.items ≡ length run.now.lens.now }
    requires sizes { (rank : ℕ) → length (slice_index_or inboxes.old.items rank []) ≡ slice_index run.now.lens.now rank }
    requires within { AreWithin run.now.lens.now run.now.links.now }
    requires index { index < length run.now.links.now.meets }
    ensures { OnOk result (AreAdded (IsMemberSource index (slice_index_or run.now.links.now.meets index no_meet).calls) inboxes.old.items inboxes.new.items) }
{
    let members = run.links.meets.get(index).calls.as_slice();
    for member in members {
        let inbox = &mut inboxes[member.rank.0 as usize];
        inbox.push(member.call, Source::Meet(index))?;
    }
    Ok(())
}
