//! Tests of what the rows of tables cannot say: sources and sinks in memory, the logs of a trial byte for byte, lists, and the messages of
//! errors, through public calls.
#![tactic(auto)]

#[cfg(test)]
mod base;
#[cfg(test)]
mod io;
#[cfg(test)]
mod trial;
