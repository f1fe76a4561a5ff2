//! The calls of a rank, with its log's end.
ghost use Rattle.std.specs.Prelude.{◌≡◌};

use crate::call_list::CallList;
use rma_base::{LineNo, Rank};
use std::marker::Model;

/// The calls of a rank.
#[derive(Debug, Drop)]
pub struct RankCalls {
    /// The rank that makes the calls.
    rank: Rank,
    /// The calls in the order of its log.
    calls: CallList,
    /// The line that ends the log.
    end: LineNo,
}

impl Model for RankCalls {
    ghost use Rattle.rma_call.specs.Call.{RankCalls};

    ghost Value = { RankCalls };

    ghost view = { λ own. record { rank = own.rank; calls = own.calls.calls; end = own.end } };
}

impl RankCalls {
    /// The calls of the rank, whose log ends at this line.
    pub fn new(rank: Rank, calls: CallList, end: LineNo) -> RankCalls
        ensures { result ≡ record { rank = rank; calls = calls.calls; end = end } }
    {
        RankCalls { rank, calls, end }
    }

    /// The rank that makes the calls.
    pub fn rank(&self) -> Rank
        ensures { result ≡ self.now.rank }
    {
        self.rank
    }

    /// The calls in the order of its log.
    pub fn calls(&self) -> &CallList
        ensures { result.now.calls ≡ self.now.calls }
    {
        &self.calls
    }

    /// The line that ends the log.
    pub fn end(&self) -> LineNo
        ensures { result ≡ self.now.end }
    {
        self.end
    }
}
