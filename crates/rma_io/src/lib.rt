//! How logs come in and reports go out.
//!
//! [`Pulls`] is a source of the logs of a run that are read in pieces, and [`Logs`] one whose logs are opened by name. A
//! [`Sink`] takes the report. What each call of them means, and what is known of the bytes of a source or a sink that says
//! them, stands in `specs/Source.antt` and `specs/Sink.antt`.
//!
//! In memory, [`MemoryLogs`] and [`MemorySink`] fail where they are told to; [`SureLogs`] and [`SureSink`] never fail.
#![tactic(auto)]

mod buffer;
mod memory_logs;
mod memory_sink;
mod open_log;
mod piece;
mod sink;
mod source;
mod sure_logs;
mod sure_sink;

pub use memory_logs::MemoryLogs;
pub use memory_sink::MemorySink;
pub use sink::Sink;
pub use source::{Failed, Logs, OpenFault, Pull, Pulls};
pub use sure_logs::SureLogs;
pub use sure_sink::SureSink;
