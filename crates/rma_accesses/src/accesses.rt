//! The accesses of a run.
ghost use Rattle.std.specs.Prelude.{◌≡◌, map, All, IfOk};
ghost use Rattle.rma_match.specs.Matches.{AreMatches};
ghost use Rattle.rma_accesses.specs.Run.{AreEpochsOf, AreGood};
ghost use Rattle.rma_accesses.specs.inside.Kept.{AreAccessesOf, IsAccessesOf, rank_of};

use crate::epochs::RunEpochs;
use crate::fences::add_fenced;
use crate::lists::posted_lists;
use crate::rank::RankAccesses;
use rma_base::Memory;
use rma_call::RankCalls;
use rma_match::Matches;
use rma_rules::Spans;
use std::alloc::Global;

/// The accesses of a run, and the lists beside them.
#[derive(Drop)]
pub struct RunAccesses<'r, 'e> {
    /// What the sound calls of each rank touch.
    pub ranks: Vec<RankAccesses<'r, 'e>>,
    /// The calls that make stores and updates visible, the lock epochs, the posts and the exposure epochs.
    pub lists: Spans,
}

impl<'r, 'e> RunAccesses<'r, 'e> {
    /// Those of a run of good logs with these matches and epochs.
    ///
    /// # Errors
    ///
    /// `Memory` where there is none left.
    pub fn of(
        alloc: Global,
        ranks: &[RankCalls],
        matches: &Matches,
        epochs: &'e RunEpochs<'r>,
    ) -> Result<RunAccesses<'r, 'e>, Memory>
        requires good { AreGood ranks.now }
        requires matches { AreMatches ranks.now matches.now }
        requires epochs { AreEpochsOf ranks.now epochs.now }
        ensures { IfOk result (AreAccessesOf ranks.now) }
    {
        let mut lists = posted_lists(alloc, epochs)?;
        add_fenced(alloc, &mut lists, ranks, matches, epochs)?;
        let ranks = each_of(alloc, ranks, matches, epochs)?;
        Ok(RunAccesses { ranks, lists })
    }
}

/// The accesses of each rank.
fn each_of<'r, 'e>(
    alloc: Global,
    ranks: &[RankCalls],
    matches: &Matches,
    epochs: &'e RunEpochs<'r>,
) -> Result<Vec<RankAccesses<'r, 'e>>, Memory>
    requires good { AreGood ranks.now }
    requires matches { AreMatches ranks.now matches.now }
    requires epochs { AreEpochsOf ranks.now epochs.now }
    ensures ranks { IfOk result (λ list. map rank_of list.items ≡ ranks.now) }
    ensures each { IfOk result (λ list. All (IsAccessesOf ranks.now) list.items) }
{
    let mut list = Vec::new(alloc);
    for own in epochs.ranks.as_slice() {
        list.push(RankAccesses::of(alloc, ranks, matches, &epochs.windows, own)?)?;
    }
    Ok(list)
}
