//! The plain data that every layer of the auditor speaks of.
//!
//! A run has ranks ([`Rank`], [`RankSet`]), and each rank a log of numbered lines ([`LineNo`]) in one [`Version`] of the
//! format, whose calls lie between points of time ([`Point`]). Lines name things by a [`Name`] and places in the source by a
//! [`Site`]; copies of both share one text. What is wrong with a line is a [`FormReason`], with how calls match a
//! [`MatchReason`], and with the epoch of a call an [`EpochReason`], each with its word of the report. The [`limits`] of one
//! audit stand here alone, in the code as in `specs/Limits.antt`.
//!
//! Whatever takes memory answers [`Memory`] where there is none left.
#![tactic(auto)]

mod epoch_reason;
mod form_reason;
pub mod laws;
pub mod limits;
mod line;
mod match_reason;
mod memory;
mod name;
mod point;
mod rank;
mod rank_set;
mod same;
mod sequence;
mod site;
mod version;
mod window;

pub use epoch_reason::EpochReason;
pub use form_reason::FormReason;
pub use line::LineNo;
pub use match_reason::MatchReason;
pub use memory::Memory;
pub use name::{Name, NameError};
pub use point::Point;
pub use rank::Rank;
pub use rank_set::{RankSet, RankSetError};
pub use same::is_same;
pub use sequence::Sequence;
pub use site::Site;
pub use version::Version;
pub use window::{AccOps, WinModel};
