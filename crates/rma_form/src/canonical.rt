//! Writing a line.
ghost use Rattle.std.specs.Prelude.{◌≡◌, ℕ, List, ◌++◌, IfOk, OnOk, string_bytes};
ghost use Rattle.std.specs.List.{join_with_byte};
ghost use Rattle.rma_base.specs.declared.version.Version.{Version};
ghost use Rattle.rma_form.specs.Canonical.{canonical, site_suffix, spelled};
ghost use Rattle.rma_form.specs.Lines.{states};

use crate::event::{Event, Stated};
use crate::line::{datatype, epoch, frame, local, message, moving, rma, window};
use rma_base::{Memory, Name, Site};
use rma_call::SyncCall;
use std::alloc::Global;

/// The canonical line of what a line states, without its line feed: single spaces between the words, numbers in
/// decimal digits without leading zeros, ranks ascending, assertions in one order, and the site last.
pub fn line_of(alloc: Global, stated: &Stated) -> Result<String, Memory>
    ensures canonical { IfOk result (λ line. string_bytes line ≡ canonical stated.now) }
    ensures states { (version : Version) (text : List ℕ) → states version text stated.now → IfOk result (λ line. states version (string_bytes line) stated.now) }
{
    let mut line = event_line(alloc, &stated.event)?;
    push_site(&mut line, &stated.site)?;
    Ok(line)
}

// Puts the site behind the words of a line.
fn push_site(line: &mut String, site: &Option<Site>) -> Result<(), Memory>
    ensures { OnOk result (string_bytes line.new ≡ string_bytes line.old ++ site_suffix site.now) }
{
    if let Some(site) = site {
        write!(line, " @{}", site.text())?;
    }
    Ok(())
}

// The words of an event.
fn event_line(alloc: Global, event: &Event) -> Result<String, Memory>
    ensures { IfOk result (λ line. string_bytes line ≡ join_with_byte 32 (spelled event.now)) }
{
    match event {
        Event::Header {
            version,
            rank,
            size,
        } => frame::header_line(alloc, *version, *rank, *size),
        Event::End => frame::end_line(alloc),
        Event::Call { call, request } => call_line(alloc, call, request),
        Event::Datatype(line) => datatype::line(alloc, line),
        Event::Rma { line, request } => rma::line(alloc, line, request),
        Event::Local(line) => local::line(alloc, line),
    }
}

// The words of the line of a call.
fn call_line(alloc: Global, call: &SyncCall, request: &Option<Name>) -> Result<String, Memory>
    ensures { IfOk result (λ line. string_bytes line ≡ join_with_byte 32 (spelled (Event.Call call.now request.now))) }
{
    match call {
        SyncCall::Frame(call) => frame::line(alloc, call),
        SyncCall::Message(call) => message::line(alloc, call, request),
        SyncCall::Window(call) => window::line(alloc, call),
        SyncCall::Epoch(call) => epoch::line(alloc, call),
        SyncCall::Moving(call) => moving::line(alloc, call),
    }
}
