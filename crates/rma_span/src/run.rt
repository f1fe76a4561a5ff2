//! A rank in its run.
use rma_base::Rank;
use rma_call::RankCalls;
use rma_completion::Completions;
use rma_epoch::{Epoch, EpochTable};
use rma_match::Matches;
use rma_window::Windows;

/// A rank in its run.
#[derive(Clone, Copy)]
pub(crate) struct RankRun<'a> {
    /// The calls of all ranks.
    pub ranks: &'a [RankCalls],
    /// Which of them match.
    pub matches: &'a Matches,
    /// The windows of the run.
    pub windows: &'a Windows,
    /// The rank.
    pub rank: Rank,
    /// What is known of its epochs.
    pub table: &'a EpochTable,
    /// Its epochs.
    pub epochs: &'a [Epoch],
    /// What its sound calls complete.
    pub completions: &'a Completions,
}
