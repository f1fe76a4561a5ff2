//! The entries that lead to a point.
use rma_base::{Memory, Point, Sequence};
use rma_link::{Links, Meet, Member};
use std::alloc::Global;

/// The entries from which links of a run lead to a point.
///
/// # Errors
///
/// `Memory` where there is none left.
pub fn entries_before(
    alloc: Global,
    links: &Links,
    point: Point,
) -> Result<Sequence<Point>, Memory> {
    let mut entries = Sequence::new(alloc);
    add_edges(&mut entries, links, point)?;
    for meet in links.meets.as_slice() {
        if has_return(meet, point) {
            add_members(&mut entries, meet, point)?;
        }
    }
    Ok(entries)
}

/// Adds the entries from which edges lead to a point.
fn add_edges(entries: &mut Sequence<Point>, links: &Links, point: Point) -> Result<(), Memory> {
    for edge in links.edges.as_slice() {
        if edge.to == point {
            entries.push(edge.from)?;
        }
    }
    Ok(())
}

/// Whether a point is the return of a call of a meet.
fn has_return(meet: &Meet, point: Point) -> bool {
    meet.calls.as_slice().iter().any(|member| {
        member.rank == point.rank && entry_of(*member).pos.checked_add(1) == Some(point.pos)
    })
}

/// Adds the entries of the calls of a meet that other ranks make.
fn add_members(entries: &mut Sequence<Point>, meet: &Meet, point: Point) -> Result<(), Memory> {
    for member in meet.calls.as_slice() {
        if member.rank != point.rank {
            entries.push(entry_of(*member))?;
        }
    }
    Ok(())
}

/// The entry of a call.
fn entry_of(member: Member) -> Point {
    Point {
        rank: member.rank,
        pos: member.call.saturating_mul(2),
    }
}
