//! What returns wait for, by the links of a run.
ghost use Rattle.std.specs.Prelude.{ℕ, ◌<◌, List, slice_index};
ghost use Rattle.rma_link.specs.declared.links.Links.{Links};
ghost use Rattle.rma_link.specs.Within.{AreWithin};
ghost use Rattle.rma_walk.specs.Source.{AreSources};
ghost use Rattle.rma_order_probe.specs.Linked.{IsLinkedRun};

use crate::asked::{CallName, call_in};
use crate::linked::LinkedRun;
use crate::text::print_point;
use rma_link::Links;
use rma_order::call_counts;
use rma_table::Failure;
use rma_walk::{Inbox, Source, inboxes_of};
use std::io;

/// Prints what the return of a call waits for.
///
/// # Errors
///
/// `Row` where the run has no such call, and `Memory` where there is none left.
pub fn print_waits(rt: HostRuntime, run: LinkedRun<'_>, word: &str) -> Result<(), Failure>
    requires { IsLinkedRun run }
{
    let name = call_in(word)?;
    let lens = call_counts(rt.alloc(), run.calls)?;
    print_counted(rt, &lens, run.links, name)
}

/// Prints the same in a run with these links, whose ranks make so many calls.
fn print_counted(
    rt: HostRuntime,
    lens: &[u32],
    links: &Links,
    name: CallName,
) -> Result<(), Failure>
    requires { AreWithin lens.now links.now }
{
    let rank = name.rank.0 as usize;
    if rank >= lens.len() || name.number >= lens[rank] {
        return Err(Failure::Row);
    }
    let inboxes = inboxes_of(rt.alloc(), lens, links)?;
    print_inbox(rt, &inboxes, name)
}

/// Prints the same of a call by what all calls wait for.
fn print_inbox(rt: HostRuntime, inboxes: &[Inbox], name: CallName) -> Result<(), Failure>
    requires { (lens : List ℕ) × (links : Links) × AreSources lens links inboxes.now × name.number < slice_index lens name.rank.0 }
{
    let inbox = &inboxes[name.rank.0 as usize];
    let sources = inbox.sources(rt.alloc(), name.number)?;
    Ok(print_sources(rt, sources.as_slice())?)
}

/// Prints the sources of a call, or that there are none: entries, and meets by their place among those of the run.
fn print_sources(rt: HostRuntime, sources: &[Source]) -> io::Result<()> {
    if sources.is_empty() {
        return println!(rt; "= nothing");
    }
    print!(rt; "=")?;
    for source in sources {
        match *source {
            Source::Entry(point) => print_point(rt, point)?,
            Source::Meet(index) => print!(rt; " meet {index}")?,
        }
    }
    println!(rt; "")
}
