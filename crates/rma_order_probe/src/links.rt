//! The links of a run.
use crate::text::print_point;
use rma_link::{Links, Meet};
use std::io;

/// Prints the edges of a run, and then its meets.
pub fn print_links(rt: HostRuntime, links: &Links) -> io::Result<()> {
    print_edges(rt, links)?;
    for meet in links.meets.as_slice() {
        print_meet(rt, meet)?;
    }
    Ok(())
}

/// Prints the edges of a run.
fn print_edges(rt: HostRuntime, links: &Links) -> io::Result<()> {
    for edge in links.edges.as_slice() {
        print!(rt; "= edge")?;
        print_point(rt, edge.from)?;
        print_point(rt, edge.to)?;
        println!(rt; "")?;
    }
    Ok(())
}

/// Prints a meet: its calls, each by its rank and its number.
fn print_meet(rt: HostRuntime, meet: &Meet) -> io::Result<()> {
    print!(rt; "= meet")?;
    for member in meet.calls.as_slice() {
        print!(rt; " {}:{}", member.rank.0, member.call)?;
    }
    println!(rt; "")
}

/// Whether two runs have the same links, in one order.
pub fn are_the_same(links: &Links, others: &Links) -> bool {
    links.edges.as_slice() == others.edges.as_slice()
        && are_meets(links.meets.as_slice(), others.meets.as_slice())
}

/// Whether two lists have the same meets.
fn are_meets(meets: &[Meet], others: &[Meet]) -> bool {
    meets.len() == others.len()
        && meets.iter().zip(others).all(|(meet, other)| meet.calls.as_slice()
            == other.calls.as_slice())
}
