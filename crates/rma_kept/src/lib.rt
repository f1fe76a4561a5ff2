//! What the calls of every good log satisfy.
//!
//! A rank's calls are kept where each is as it may be after those before it, and whole where each request has its wait besides.
//! `specs/Kept.antt` says so in one record, which upper layers take in place of the lines of a log. [`laws`] says which calls are
//! kept and whole. There is no code here.
#![tactic(auto)]

pub mod laws;
