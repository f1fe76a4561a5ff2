//! What the words of the command line ask for.
//!
//! [`Command::of_words`] reads the words after the program's name, from left to right, and answers a [`Command`]: an [`Audit`] says
//! which logs are to be audited, how many of the findings are shown, and whether the report is JSON; a [`Strict`] audit, the logs and
//! how many of the findings are shown; an [`Explain`], the logs and which of their findings is explained; a trial, which logs are to
//! be made and audited. Words that are no command give nothing. `specs/Words.antt` says which words are a command, and [`laws`] that
//! they ask for one thing at most.
#![tactic(auto)]

mod command;
pub mod laws;
mod names;
mod number;
mod options;
mod trial;

pub use command::{Audit, Command, Explain, Strict};
