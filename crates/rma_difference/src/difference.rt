//! The calls of a run that differ from the first of their round.
ghost use Rattle.std.specs.Prelude.{◌≡◌, true, IfOk};
ghost use Rattle.rma_round.specs.declared.kind.Kind.{Kind};
ghost use Rattle.rma_round.specs.declared.kind.Kind.TheVariants as kind;
ghost use Rattle.rma_agreement.specs.Balance.{AreBalanced};
ghost use Rattle.rma_agreement.specs.Collective.{round_calls};
ghost use Rattle.rma_agreement.specs.Round.{round_differences};
ghost use Rattle.rma_member.specs.inside.Member.{AreMembers};

use crate::scan::Scan;
use rma_base::{Memory, Sequence};
use rma_call::{MatchFault, RankCalls};
use rma_member::Members;
use std::alloc::Global;

/// What one scan of all calls finds of their rounds. Frees of a window never differ.
#[derive(Drop)]
pub struct RoundDifferences {
    /// What the calls declare, and who has to make a call.
    pub members: Members,
    /// The barriers and the creations of windows that differ from the first of their round, by rank and then by line.
    pub collectives: Sequence<MatchFault>,
    /// The fences that differ from it.
    pub fences: Sequence<MatchFault>,
    /// The calls that move data and differ from it.
    pub movings: Sequence<MatchFault>,
    /// Whether each member was seen to make as many calls of each kind on each name as any rank does.
    pub is_balanced: bool,
}

/// Scans the calls of a run for those that differ from the first of their round.
///
/// # Errors
///
/// `Memory` where memory ran out.
pub fn round_differences(alloc: Global, ranks: &[RankCalls]) -> Result<RoundDifferences, Memory>
    ensures members { IfOk result (λ found. AreMembers ranks.now found.members) }
    ensures collectives { IfOk result (λ found. found.collectives ≡ round_differences kind.Collective (round_calls kind.Collective ranks.now)) }
    ensures fences { IfOk result (λ found. found.fences ≡ round_differences kind.Fence (round_calls kind.Fence ranks.now)) }
    ensures movings { IfOk result (λ found. found.movings ≡ round_differences kind.Moving (round_calls kind.Moving ranks.now)) }
    ensures balanced { IfOk result (λ found. found.is_balanced ≡ true → (kind : Kind) → AreBalanced kind ranks.now) }
{
    let Scan {
        comms,
        creations,
        rounds,
    } = Scan::new(alloc, ranks)?;
    let members = Members::new(alloc, ranks, comms, creations)?;
    let is_balanced = rounds.are_balanced(&members);
    Ok(RoundDifferences {
        members,
        collectives: rounds.collectives.faults(),
        fences: rounds.fences.faults(),
        movings: rounds.movings.faults(),
        is_balanced,
    })
}
