//! The calls that logs record.
use crate::access::{push_local, push_rma};
use crate::epoch::push_epoch;
use crate::given::GivenLog;
use crate::read::{end_in_pieces, print_fault};
use crate::sync::{push_frame, push_message, push_moving, push_window};
use rma_base::Site;
use rma_book::{BookEnd, FormFault};
use rma_call::{CallRef, RankCalls, WhatRef};
use rma_table::Failure;
use std::alloc::Global;

/// Prints the calls that a log records, which are the same where it comes one byte at a time, or its first bad line.
///
/// # Errors
///
/// `Row` where the log is longer than one may be, and `Memory` where there is none left.
pub fn print_calls(rt: HostRuntime, log: &GivenLog) -> Result<(), Failure> {
    match end_in_pieces(rt.alloc(), log, log.bytes.len())? {
        BookEnd::Calls(own) => print_own(rt, log, &own),
        BookEnd::Fault(fault) => print_bad(rt, fault),
    }
}

/// Prints the first bad line of a log.
fn print_bad(rt: HostRuntime, fault: FormFault) -> Result<(), Failure> {
    print!(rt; "= ")?;
    print_fault(rt, fault)?;
    Ok(println!(rt; "")?)
}

/// Prints the calls of a rank.
fn print_own(rt: HostRuntime, log: &GivenLog, own: &RankCalls) -> Result<(), Failure> {
    let text = text_of(rt.alloc(), own)?;
    print!(rt; "{text}")?;
    if !are_in_bytes(rt.alloc(), log, &text)? {
        println!(rt; "= one byte at a time: other calls")?;
    }
    Ok(())
}

/// Whether this is the text of the calls that a log records where it comes one byte at a time.
fn are_in_bytes(alloc: Global, log: &GivenLog, text: &str) -> Result<bool, Failure> {
    match end_in_pieces(alloc, log, 1)? {
        BookEnd::Calls(own) => Ok(text_of(alloc, &own)?.as_str() == text),
        BookEnd::Fault(_) => Ok(false),
    }
}

/// The calls of a rank, each in a line of its own, and the line that ends its log.
fn text_of(alloc: Global, own: &RankCalls) -> Result<String, Failure> {
    let mut text = String::new(alloc);
    let calls = own.calls();
    for index in 0..calls.len() {
        push_call(&mut text, calls.get(index))?;
    }
    writeln!(text, "= rank {} ends at line {}", own.rank().0, own.end().0)?;
    Ok(text)
}

/// Appends a call: its line, the place in the program where it stands and the number of its request, where it has these, and what it
/// does.
fn push_call(text: &mut String, call: CallRef<'_>) -> Result<(), Failure> {
    write!(text, "= {}", call.line.0)?;
    push_site(text, call.site)?;
    push_request(text, call.request)?;
    text.push(' ')?;
    push_what(text, call.what)?;
    Ok(text.push('\n')?)
}

/// Appends the place in the program where a call stands, where it is known.
fn push_site(text: &mut String, site: Option<&Site>) -> Result<(), Failure> {
    if let Some(site) = site {
        write!(text, " @{}", site.text())?;
    }
    Ok(())
}

/// Appends the number of the request of a call, where it has one.
fn push_request(text: &mut String, request: Option<u32>) -> Result<(), Failure> {
    if let Some(request) = request {
        write!(text, " request {request}")?;
    }
    Ok(())
}

/// Appends what a call does.
fn push_what(text: &mut String, what: WhatRef<'_>) -> Result<(), Failure> {
    match what {
        WhatRef::Frame(call) => push_frame(text, call),
        WhatRef::Message(call) => push_message(text, call),
        WhatRef::Window(call) => push_window(text, call),
        WhatRef::Epoch(call) => push_epoch(text, call),
        WhatRef::Moving(call) => push_moving(text, call),
        WhatRef::Rma(call) => push_rma(text, call),
        WhatRef::Local(call) => push_local(text, call),
    }
}
