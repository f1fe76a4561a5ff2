//! All calls that the calls of other ranks do not match.
ghost use Rattle.std.specs.Prelude.{◌≡◌, ◌++◌, [], true, IfOk, OnOk};
ghost use Rattle.rma_run.specs.Run.{IsRun};
ghost use Rattle.rma_match.specs.Matches.{AreMatches};
ghost use Rattle.rma_round.specs.declared.kind.Kind.{Kind};
ghost use Rattle.rma_agreement.specs.Balance.{AreBalanced};
ghost use Rattle.rma_agreement.specs.Collective.{round_calls};
ghost use Rattle.rma_agreement.specs.Round.{round_differences};
ghost use Rattle.rma_member.specs.inside.Member.{AreMembers};
ghost use Rattle.rma_missing.specs.Missing.{missing_calls, missing_data};
ghost use Rattle.rma_sync.specs.Matching.{match_faults};
ghost use Rattle.rma_sync.specs.inside.Matching.{first_faults, last_faults};

use rma_agreement::are_regular;
use rma_base::{MatchReason, Memory, Sequence};
use rma_call::{MatchFault, RankCalls};
use rma_difference::{RoundDifferences, round_differences};
use rma_match::Matches;
use rma_member::{Members, differences};
use rma_missing::{MissingFaults, missing_calls};
use std::alloc::Global;

/// The faults of matching of a run with these matches, by reason in the order of the report, then by rank, then by line.
///
/// # Errors
///
/// `Memory` where memory ran out.
pub fn match_faults(
    alloc: Global,
    ranks: &[RankCalls],
    matches: &Matches,
) -> Result<Sequence<MatchFault>, Memory>
    requires run { IsRun ranks.now }
    requires matches { AreMatches ranks.now matches.now }
    ensures { IfOk result (λ faults. faults ≡ match_faults ranks.now) }
{
    let mut faults = matches.messages.faults(alloc)?;
    let rounds = RoundFaults::of_calls(alloc, ranks, matches)?;
    append(&mut faults, &rounds.first)?;
    append(&mut faults, &matches.exposures.faults(alloc, ranks)?)?;
    append(&mut faults, &rounds.last)?;
    Ok(faults)
}

/// The faults of rounds, windows and communicators.
#[derive(Drop)]
struct RoundFaults {
    /// Those that stand before the faults of posts and starts.
    first: Sequence<MatchFault>,
    /// Those that stand behind them.
    last: Sequence<MatchFault>,
}

impl RoundFaults {
    /// Those of a run with these matches.
    fn of_calls(
        alloc: Global,
        ranks: &[RankCalls],
        matches: &Matches,
    ) -> Result<RoundFaults, Memory>
        requires run { IsRun ranks.now }
        requires matches { AreMatches ranks.now matches.now }
        ensures first { IfOk result (λ faults. faults.first ≡ first_faults ranks.now) }
        ensures last { IfOk result (λ faults. faults.last ≡ last_faults ranks.now) }
    {
        let members = Members::of_calls(alloc, ranks)?;
        if are_regular(alloc, ranks, &matches.rounds, &members)? {
            return RoundFaults::of_declarations(alloc, ranks, &members);
        }
        RoundFaults::of_scan(alloc, ranks)
    }

    /// Those of a run in whose rounds nothing is at fault.
    fn of_declarations(
        alloc: Global,
        ranks: &[RankCalls],
        members: &Members,
    ) -> Result<RoundFaults, Memory>
        requires members { AreMembers ranks.now members.now }
        requires balanced { (kind : Kind) → AreBalanced kind ranks.now }
        requires agree { (kind : Kind) → round_differences kind (round_calls kind ranks.now) ≡ [] }
        ensures first { IfOk result (λ faults. faults.first ≡ first_faults ranks.now) }
        ensures last { IfOk result (λ faults. faults.last ≡ last_faults ranks.now) }
    {
        let mut last = differences(alloc, MatchReason::WindowDiffers, &members.creations)?;
        append(
            &mut last,
            &differences(alloc, MatchReason::CommDiffers, &members.comms)?,
        )?;
        Ok(RoundFaults {
            first: Sequence::new(alloc),
            last,
        })
    }

    /// Those of any run. All calls are scanned.
    fn of_scan(alloc: Global, ranks: &[RankCalls]) -> Result<RoundFaults, Memory>
        ensures first { IfOk result (λ faults. faults.first ≡ first_faults ranks.now) }
        ensures last { IfOk result (λ faults. faults.last ≡ last_faults ranks.now) }
    {
        let RoundDifferences {
            members,
            collectives: mut first,
            fences,
            movings,
            is_balanced,
        } = round_differences(alloc, ranks)?;
        let mut last = differences(alloc, MatchReason::WindowDiffers, &members.creations)?;
        let comm_faults = differences(alloc, MatchReason::CommDiffers, &members.comms)?;
        let missing = missing(alloc, ranks, members, is_balanced)?;
        append(&mut first, &missing.calls)?;
        append(&mut first, &fences)?;
        append(&mut last, &comm_faults)?;
        append(&mut last, &movings)?;
        append(&mut last, &missing.movings)?;
        Ok(RoundFaults { first, last })
    }
}

/// The faults of the calls that some member does not make, of which there are none where the counts are balanced.
fn missing(
    alloc: Global,
    ranks: &[RankCalls],
    members: Members,
    is_balanced: bool,
) -> Result<MissingFaults, Memory>
    requires members { AreMembers ranks.now members }
    requires balanced { is_balanced ≡ true → (kind : Kind) → AreBalanced kind ranks.now }
    ensures calls { IfOk result (λ missing. missing.calls ≡ missing_calls ranks.now) }
    ensures movings { IfOk result (λ missing. missing.movings ≡ missing_data ranks.now) }
{
    if is_balanced {
        Ok(MissingFaults::new(alloc))
    } else {
        missing_calls(alloc, ranks, members)
    }
}

/// Appends more faults.
fn append(faults: &mut Sequence<MatchFault>, more: &Sequence<MatchFault>) -> Result<(), Memory>
    ensures { OnOk result (faults.new ≡ faults.old ++ more.now) }
{
    for fault in more.as_slice() {
        faults.push(*fault)?;
    }
    Ok(())
}
