//! A run whose links are known.
use rma_call::RankCalls;
use rma_happens_before::HappensBefore;
use rma_link::Links;
use rma_match::Matches;

/// A run of good logs, with the links between its calls.
#[derive(Clone, Copy)]
pub struct LinkedRun<'r> {
    /// The calls of its ranks.
    pub calls: &'r [RankCalls],
    /// Which of them match.
    pub matches: &'r Matches,
    /// The links that this gives.
    pub links: &'r Links,
}

/// A possible run, with the order of its points.
#[derive(Clone, Copy)]
pub struct OrderedRun<'r, 'o> {
    /// The run with its links.
    pub linked: LinkedRun<'r>,
    /// The order.
    pub order: &'o HappensBefore,
    /// How many calls each rank makes.
    pub lens: &'o [u32],
}
