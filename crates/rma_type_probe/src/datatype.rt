//! The datatypes that rows ask about.
ghost use Rattle.std.specs.Prelude.{◌<◌, length, IfOk, IfSome};

use rma_base::{Name, NameError};
use rma_table::Failure;
use rma_type::{Made, TypeId, TypeTable};
use std::alloc::Global;
use std::io;

/// The datatype that a word names, or whose number it is, if the table has it. A name does not begin with a digit.
///
/// # Errors
///
/// `Row` where it is neither a name nor a number, and `Memory` where there is none left.
pub fn find(alloc: Global, types: &TypeTable, word: &str) -> Result<Option<TypeId>, Failure>
    ensures { IfOk result (λ found. IfSome found (λ id. id.0 < length types.now.origins)) }
{
    match word.parse::<u32>() {
        Ok(number) if number < types.types() => Ok(Some(TypeId(number))),
        Ok(_) => Ok(None),
        Err(_) => find_named(alloc, types, word),
    }
}

/// The datatype of a name, if it is live.
fn find_named(alloc: Global, types: &TypeTable, word: &str) -> Result<Option<TypeId>, Failure>
    ensures { IfOk result (λ found. IfSome found (λ id. id.0 < length types.now.origins)) }
{
    match Name::new(alloc, word.as_bytes()) {
        Ok(name) => Ok(types.find(&name)),
        Err(NameError::Bad) => Err(Failure::Row),
        Err(NameError::Memory) => Err(Failure::Memory),
    }
}

/// Prints what is known of a datatype by its name or its number, or that the table does not have it.
///
/// # Errors
///
/// `Row` where the word is neither a name nor a number, and `Memory` where there is none left.
pub fn print_known(rt: HostRuntime, types: &TypeTable, word: &str) -> Result<(), Failure> {
    match find(rt.alloc(), types, word)? {
        Some(id) => Ok(print_kept(rt, types, id)?),
        None => Ok(println!(rt; "= unknown")?),
    }
}

/// Prints the number of a datatype, where it comes from, whether it is committed, and its measures.
fn print_kept(rt: HostRuntime, types: &TypeTable, id: TypeId) -> io::Result<()>
    requires { id.0 < length types.now.origins }
{
    let origin = if types.made_by(id).is_none() {
        "basic"
    } else {
        "derived"
    };
    let state = if types.committed(id) {
        "committed"
    } else {
        "uncommitted"
    };
    print!(rt; "= number {} {origin} {state}", id.0)?;
    print_made(rt, types.made(id))
}

/// Prints the name of a datatype that was made, and its measures.
///
/// # Errors
///
/// `Row` where the table has no datatype of this number.
pub fn print_new(
    rt: HostRuntime,
    types: &TypeTable,
    name: &Name,
    id: TypeId,
) -> Result<(), Failure> {
    if id.0 >= types.types() {
        return Err(Failure::Row);
    }
    print!(rt; "= {}", name.text())?;
    Ok(print_made(rt, types.made(id))?)
}

/// Prints the measures of a datatype.
fn print_made(rt: HostRuntime, made: Made) -> io::Result<()> {
    print!(rt; " size {} lower {} upper {}", made.size, made.lb, made.ub)?;
    print!(rt;
        " extent {} elements {} blocks {}",
        made.extent, made.entries, made.blocks
    )?;
    println!(rt; "{}", if made.solid { " solid" } else { "" })
}
