//! The signatures of datatypes.
ghost use Rattle.std.specs.Prelude.{◌<◌, length, IfOk};

use crate::datatype::find;
use crate::words::word_and_rest;
use rma_base::limits::ELEMENTS;
use rma_table::{Failure, number};
use rma_type::{Component, TypeId, TypeTable};
use std::io;

/// Prints the signature of a datatype, and what its elements have in common.
///
/// # Errors
///
/// `Row` where the table does not have it, and `Memory` where there is none left.
pub fn print_signature(rt: HostRuntime, types: &TypeTable, word: &str) -> Result<(), Failure> {
    match find(rt.alloc(), types, word)? {
        Some(id) => Ok(print_runs(rt, types, id)?),
        None => Err(Failure::Row),
    }
}

/// Prints the basic datatypes of its elements in order, each with how many there are side by side, and what all have in common.
fn print_runs(rt: HostRuntime, types: &TypeTable, id: TypeId) -> io::Result<()>
    requires { id.0 < length types.now.origins }
{
    print!(rt; "=")?;
    for run in types.signature(id) {
        print!(rt; " {} {}", run.basic.word(), run.count)?;
    }
    match types.component(id) {
        Component::Empty => println!(rt; " empty"),
        Component::One(basic) => println!(rt; " one {}", basic.word()),
        Component::Mixed => println!(rt; " mixed"),
    }
}

/// Copies of a datatype.
#[derive(Clone, Copy)]
struct Copies {
    /// The datatype.
    id: TypeId,
    /// How many copies there are.
    count: u32,
}

/// Prints whether the signature of copies of a datatype begins that of others: `A 3 B 1`.
///
/// # Errors
///
/// `Row` where the words are not these, the table does not have the datatypes, or the copies of the first have more elements than a buffer
/// may have; and `Memory` where there is none left.
pub fn print_fits(rt: HostRuntime, types: &TypeTable, words: &str) -> Result<(), Failure> {
    let (name, rest) = word_and_rest(words);
    let (count, others) = word_and_rest(rest);
    let copies = copies_of(rt, types, name, count)?;
    let (other_name, other_count) = word_and_rest(others);
    let others = copies_of(rt, types, other_name, other_count)?;
    let fit = fit(types, copies, others)?;
    Ok(println!(rt; "= {}", if fit { "yes" } else { "no" })?)
}

/// The copies that a name and a number give.
fn copies_of(rt: HostRuntime, types: &TypeTable, name: &str, count: &str) -> Result<Copies, Failure>
    ensures { IfOk result (λ copies. copies.id.0 < length types.now.origins) }
{
    let count = number(count)?;
    match find(rt.alloc(), types, name)? {
        Some(id) => Ok(Copies { id, count }),
        None => Err(Failure::Row),
    }
}

/// Whether the signature of copies of a datatype begins that of others.
fn fit(types: &TypeTable, copies: Copies, others: Copies) -> Result<bool, Failure>
    requires within { copies.id.0 < length types.now.origins }
    requires others_within { others.id.0 < length types.now.origins }
{
    if u64::from(copies.count) * types.entries(copies.id) > ELEMENTS {
        return Err(Failure::Row);
    }
    Ok(types.fits(copies.id, copies.count, others.id, others.count))
}
