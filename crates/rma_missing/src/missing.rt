//! Calls that some member does not make.
ghost use Rattle.std.specs.Prelude.{◌≡◌, ◌+◌, ◌<◌, ◌^◌, ◌++◌, ◌∷◌, [], ℕ, List, IfOk, OnOk};
ghost use Rattle.std.specs.List.{cons_option};
ghost use Rattle.rma_call.specs.Call.{Call, RankCalls, call_of};
ghost use Rattle.rma_round.specs.declared.kind.Kind.{Kind};
ghost use Rattle.rma_round.specs.declared.kind.Kind.TheVariants as kind;
ghost use Rattle.rma_agreement.specs.Collective.{walked};
ghost use Rattle.rma_missing.specs.inside.NameCount.{AreCounts, AreAllCounts};
ghost use Rattle.rma_member.specs.inside.Member.{AreMembers};
ghost use Rattle.rma_missing.specs.inside.ByRank.{is_reached};
ghost use Rattle.rma_missing.specs.Missing.{missing_reason, fault_if, missing_of, missing_at, missing_calls, missing_data};
ghost use Rattle.rma_missing.specs.inside.Missing.{IsMissingOfKind, AreMissingCalls, Tells};

use crate::name_count::AllCounts;
use crate::{by_rank, name_count};
use indexmap::IndexMap;
use rma_base::{MatchReason, Memory, Name, Rank, Sequence};
use rma_call::{CallRef, MatchFault, RankCalls};
use rma_member::{Members, push_some};
use rma_round::{Kind, named};
use std::alloc::Global;

/// What tells the missing calls of a kind.
#[derive(Drop)]
struct MissingOfKind {
    /// The kind.
    kind: Kind,
    /// The numbers of the calls on each name, by rank.
    counts_by_rank: Sequence<IndexMap<Name, usize>>,
    /// The fewest calls that a member makes on a name, as far as it was asked for.
    known: IndexMap<Name, Option<usize>>,
}

/// What tells the missing calls of each kind.
#[derive(Drop)]
struct MissingCalls {
    /// Who has to make a call.
    members: Members,
    collectives: MissingOfKind,
    frees: MissingOfKind,
    fences: MissingOfKind,
    movings: MissingOfKind,
}

/// The faults of the calls that some member does not make, by rank and then by line.
#[derive(Drop)]
pub struct MissingFaults {
    /// Those of calls that move no data.
    pub calls: Sequence<MatchFault>,
    /// Those of calls that move data.
    pub movings: Sequence<MatchFault>,
}

impl MissingOfKind {
    /// The numbers of this kind in a run.
    fn new(alloc: Global, kind: Kind, ranks: &[RankCalls]) -> Result<MissingOfKind, Memory>
        ensures { IfOk result (λ missing. IsMissingOfKind kind ranks.now missing) }
    {
        let counts_by_rank = by_rank::counts_by_rank(alloc, kind, ranks)?;
        Ok(MissingOfKind {
            kind,
            counts_by_rank,
            known: IndexMap::new(alloc),
        })
    }

    /// The fewest calls on the name that a member makes, if it has a member.
    fn fewest(&mut self, members: &Members, name: &Name) -> Result<Option<usize>, Memory>
        ensures fewest { IfOk result (λ fewest. (kind : Kind) (ranks : List RankCalls) → AreMembers ranks members.now → IsMissingOfKind kind ranks self.old
            → Tells kind ranks name.now fewest) }
        ensures missing { OnOk result ((kind : Kind) (ranks : List RankCalls) → AreMembers ranks members.now → IsMissingOfKind kind ranks self.old
            → IsMissingOfKind kind ranks self.new) }
    {
        if let Some(fewest) = self.known.get(name) {
            return Ok(*fewest);
        }
        let fewest = by_rank::fewest(
            self.counts_by_rank.as_slice(),
            members.of(self.kind, name),
            name,
        );
        let name = name.copy()?;
        self.known.insert(name, fewest)?;
        Ok(fewest)
    }

    /// The fault of a call of this kind that some member does not make.
    fn judge(
        &mut self,
        members: &Members,
        counts: &IndexMap<Name, usize>,
        rank: Rank,
        call: CallRef<'_>,
    ) -> Result<Option<MatchFault>, Memory>
        ensures fault { IfOk result (λ fault. (kind : Kind) (ranks : List RankCalls) (before : List Call) → AreMembers ranks members.now
            → IsMissingOfKind kind ranks self.old → AreCounts kind before counts.now.entries → fault ≡ missing_of kind ranks rank before (call_of call.entry)) }
        ensures missing { OnOk result ((kind : Kind) (ranks : List RankCalls) → AreMembers ranks members.now → IsMissingOfKind kind ranks self.old
            → IsMissingOfKind kind ranks self.new) }
    {
        let Some(name) = named(self.kind, call.what) else {
            return Ok(None);
        };
        let number = name_count::count(counts, name);
        let fewest = self.fewest(members, name)?;
        Ok(fault_if(
            reaches(fewest, number),
            missing_reason(self.kind),
            rank,
            call,
        ))
    }
}

impl MissingCalls {
    /// Each kind in a run.
    fn new(alloc: Global, ranks: &[RankCalls], members: Members) -> Result<MissingCalls, Memory>
        requires { AreMembers ranks.now members }
        ensures { IfOk result (λ missing. AreMissingCalls ranks.now missing) }
    {
        let collectives = MissingOfKind::new(alloc, Kind::Collective, ranks)?;
        let frees = MissingOfKind::new(alloc, Kind::Free, ranks)?;
        let fences = MissingOfKind::new(alloc, Kind::Fence, ranks)?;
        let movings = MissingOfKind::new(alloc, Kind::Moving, ranks)?;
        Ok(MissingCalls {
            members,
            collectives,
            frees,
            fences,
            movings,
        })
    }

    /// Adds the fault of a call that some member does not make, after others of its rank that are counted.
    fn judge(
        &mut self,
        counts: &AllCounts,
        rank: Rank,
        call: CallRef<'_>,
        faults: &mut MissingFaults,
    ) -> Result<(), Memory>
        ensures calls { OnOk result ((ranks : List RankCalls) (before : List Call) → AreMissingCalls ranks self.old → AreAllCounts before counts.now
            → faults.new.calls ≡ faults.old.calls ++ cons_option (missing_at ranks rank before (call_of call.entry)) []) }
        ensures movings { OnOk result ((ranks : List RankCalls) (before : List Call) → AreMissingCalls ranks self.old → AreAllCounts before counts.now
            → faults.new.movings ≡ faults.old.movings ++ cons_option (missing_of kind.Moving ranks rank before (call_of call.entry)) []) }
        ensures missing { OnOk result ((ranks : List RankCalls) → AreMissingCalls ranks self.old → AreMissingCalls ranks self.new) }
    {
        let members = &self.members;
        let collective = self
            .collectives
            .judge(members, &counts.collectives, rank, call)?;
        let free = self.frees.judge(members, &counts.frees, rank, call)?;
        let fence = self.fences.judge(members, &counts.fences, rank, call)?;
        let moving = self.movings.judge(members, &counts.movings, rank, call)?;
        push_some(&mut faults.calls, collective.or(free).or(fence))?;
        push_some(&mut faults.movings, moving)?;
        Ok(())
    }
}

impl MissingFaults {
    /// No faults.
    pub fn new(alloc: Global) -> MissingFaults
        ensures calls { result.calls ≡ [] }
        ensures movings { result.movings ≡ [] }
    {
        MissingFaults {
            calls: Sequence::new(alloc),
            movings: Sequence::new(alloc),
        }
    }
}

/// The faults of the calls that some member does not make, which are those of the run's declarations.
///
/// # Errors
///
/// `Memory` where memory ran out.
pub fn missing_calls(
    alloc: Global,
    ranks: &[RankCalls],
    members: Members,
) -> Result<MissingFaults, Memory>
    requires { AreMembers ranks.now members }
    ensures calls { IfOk result (λ faults. faults.calls ≡ missing_calls ranks.now) }
    ensures movings { IfOk result (λ faults. faults.movings ≡ missing_data ranks.now) }
{
    let mut missing = MissingCalls::new(alloc, ranks, members)?;
    let mut faults = MissingFaults::new(alloc);
    for rank in ranks {
        judge_rank(alloc, rank, &mut missing, &mut faults)?;
    }
    Ok(faults)
}

/// Adds the faults of the calls of a rank.
fn judge_rank(
    alloc: Global,
    rank: &RankCalls,
    missing: &mut MissingCalls,
    faults: &mut MissingFaults,
) -> Result<(), Memory>
    ensures missing { OnOk result ((ranks : List RankCalls) → AreMissingCalls ranks missing.old → AreMissingCalls ranks missing.new) }
    ensures calls { OnOk result ((ranks : List RankCalls) → AreMissingCalls ranks missing.old
        → faults.new.calls ≡ faults.old.calls ++ walked (missing_at ranks) rank.now.rank [] rank.now.calls) }
    ensures movings { OnOk result ((ranks : List RankCalls) → AreMissingCalls ranks missing.old
        → faults.new.movings ≡ faults.old.movings ++ walked (missing_of kind.Moving ranks) rank.now.rank [] rank.now.calls) }
{
    let mut counts = AllCounts::new(alloc);
    let calls = rank.calls();
    for i in 0..calls.len() {
        let call = calls.get(i);
        missing.judge(&counts, rank.rank(), call, faults)?;
        counts.note(call)?;
    }
    Ok(())
}

/// Whether the number is as large as the fewest calls of a member.
fn reaches(fewest: Option<usize>, number: usize) -> bool
    ensures { result ≡ is_reached fewest number }
{
    match fewest {
        Some(fewest) => fewest <= number,
        None => false,
    }
}

/// The reason for which a call of the kind is reported that some member does not make.
fn missing_reason(kind: Kind) -> MatchReason
    ensures { result ≡ missing_reason kind }
{
    match kind {
        Kind::Collective | Kind::Free | Kind::Fence => MatchReason::CollectiveMissing,
        Kind::Moving => MatchReason::DataMissing,
    }
}

/// The fault of a call, if some member does not make it.
fn fault_if(lacking: bool, reason: MatchReason, rank: Rank, call: CallRef<'_>) -> Option<MatchFault>
    ensures { result ≡ fault_if lacking reason rank (call_of call.entry) }
{
    if !lacking {
        return None;
    }
    Some(MatchFault {
        reason,
        rank,
        line: call.line,
        other: None,
    })
}
