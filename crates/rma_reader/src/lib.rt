//! The lines of one log, read one after another.
//!
//! A [`LineReader`] answers of each line what `rma_parse::parse_line` answers, and keeps what calls do and their sites in the
//! tables of the list of calls that it fills: each site once, also among the logs that share [`SharedSites`]. A line comes as a
//! [`SplitLine`], which [`LineReader::split`] makes, and is asked for as one that is known first: a [`KnownCall`], or a
//! [`PlacedCall`], which is the same call elsewhere.
//!
//! The reader remembers words that come again as it is told by [`LineReader::note`] and [`LineReader::note_template`]; how they
//! are kept is the matter of `rma_known`. What the words of an access state depends on the datatypes too:
//! [`LineReader::forget_accesses`] is called where those change.
#![tactic(auto)]

mod foreseen_sites;
mod line_reader;
mod numbered_calls;
mod read_line;
mod shared_sites;
mod site_slots;

pub use line_reader::LineReader;
pub use read_line::{KnownCall, ReadLine};
pub use rma_known::{CallForm, Numbers, Part, Particulars, Place, PlacedCall, SplitLine};
pub use shared_sites::SharedSites;
