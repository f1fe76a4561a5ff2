//! How many calls each rank makes on a name, counted rank by rank.
ghost use Rattle.std.specs.Prelude.{◌≡◌, ◌≤◌, ℕ, true, length, take, nat_le, IfOk, OnOk};
ghost use Rattle.std.specs.List.{list_all};
ghost use Rattle.rma_difference.specs.inside.CallCount.{empty, number_in, with_current, counted, AreCallCounts};

use rma_base::{Memory, Sequence};
use std::alloc::Global;

/// How many calls a rank makes.
#[derive(Clone, Copy)]
pub(crate) struct RankCount {
    /// The rank, by its index in the run.
    rank: usize,
    /// The number of its calls.
    number: usize,
}

/// How many calls each rank makes on a name, counted rank by rank.
#[derive(Drop)]
pub(crate) struct CallCounts {
    /// The current rank.
    last: RankCount,
    /// The ranks that called before it, in their order.
    before: Sequence<RankCount>,
    /// The most calls that a rank makes.
    largest: usize,
}

impl CallCounts {
    /// No calls.
    pub(crate) fn new(alloc: Global) -> CallCounts
        ensures { result ≡ empty }
    {
        CallCounts {
            last: RankCount { rank: 0, number: 0 },
            before: Sequence::new(alloc),
            largest: 0,
        }
    }

    /// Counts a call of the rank, and answers its number among the calls of the rank, from 0.
    pub(crate) fn count(&mut self, rank: usize) -> Result<usize, Memory>
        ensures number { IfOk result (λ number. number ≡ number_in self.old rank) }
        ensures counted { OnOk result (self.new ≡ counted self.old rank) }
    {
        self.make_current(rank)?;
        let number = self.last.number;
        let Some(more) = number.checked_add(1) else {
            return Err(Memory);
        };
        self.last.number = more;
        self.largest = self.largest.max(more);
        Ok(number)
    }

    /// How many calls the rank makes so far, if it is the current one or a later one.
    pub(crate) fn number(&self, rank: usize) -> usize
        ensures { result ≡ number_in self.now rank }
    {
        if self.last.rank == rank {
            self.last.number
        } else {
            0
        }
    }

    /// Makes the rank the current one, if it is not.
    fn make_current(&mut self, rank: usize) -> Result<(), Memory>
        ensures { OnOk result (self.new ≡ with_current self.old rank) }
    {
        if self.last.rank == rank {
            return Ok(());
        }
        self.before.push(self.last)?;
        self.last = RankCount { rank, number: 0 };
        Ok(())
    }

    /// Whether each of these members makes as many calls as any rank does. The members ascend.
    pub(crate) fn is_balanced(&self, members: &[u32]) -> bool
        ensures { result ≡ true → (f : ℕ → ℕ) (index : ℕ) → AreCallCounts f index self.now
            → list_all (λ m. nat_le self.now.largest (f m)) members.now ≡ true }
    {
        let mut balanced = 0;
        for rank_count in self.before.as_slice() {
            balanced = self.past(members, balanced, rank_count);
        }
        self.past(members, balanced, &self.last) == members.len()
    }

    /// How many of the first members make as many calls as any rank does: `balanced` of them are known to, and a rank makes
    /// as many calls as it says.
    fn past(&self, members: &[u32], balanced: usize, rank_count: &RankCount) -> usize
        requires { balanced ≤ length members.now }
        ensures within { result ≤ length members.now }
        ensures balanced { (f : ℕ → ℕ) → rank_count.now.number ≤ f rank_count.now.rank
            → list_all (λ m. nat_le self.now.largest (f m)) (take balanced members.now) ≡ true
            → list_all (λ m. nat_le self.now.largest (f m)) (take result members.now) ≡ true }
    {
        if balanced < members.len()
            && members[balanced] as usize == rank_count.rank
            && self.largest <= rank_count.number
        {
            balanced + 1
        } else {
            balanced
        }
    }
}
