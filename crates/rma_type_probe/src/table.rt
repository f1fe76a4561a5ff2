//! Tables of datatypes, and the lines of rows that change them.
use rma_base::{FormReason, Name, Version};
use rma_datatype::Make;
use rma_form::{Event, TypeLine};
use rma_layout::LayoutTable;
use rma_parse::{ParseError, Texts, parse_line};
use rma_table::Failure;
use rma_type::{TypeError, TypeFault, TypeId, TypeTable};
use std::alloc::Global;
use std::io;

/// What comes of a line that changes datatypes.
#[derive(Drop)]
pub enum Outcome {
    /// A datatype is made under a name.
    Made(Name, TypeId),
    /// A datatype is committed.
    Committed,
    /// A datatype is freed.
    Freed,
    /// The table refuses.
    Refused(TypeFault),
}

/// The table of a rank that made no datatype yet.
///
/// # Errors
///
/// `Memory` where there is none left.
pub fn new_table(alloc: Global) -> Result<LayoutTable, Failure> {
    let types = TypeTable::new(alloc)?;
    Ok(LayoutTable::new(types)?)
}

/// Changes datatypes as a line of a log of version 1 says.
///
/// # Errors
///
/// `Row` where it says nothing of a datatype, and `Memory` where there is none left.
pub fn change(alloc: Global, table: &mut LayoutTable, line: &str) -> Result<Outcome, Failure> {
    match datatype_line(alloc, line)? {
        TypeLine::Make { name, make } => made(table, name, make),
        TypeLine::Commit { name } => Ok(changed(table.commit(&name), Outcome::Committed)),
        TypeLine::Free { name } => Ok(changed(table.free(&name), Outcome::Freed)),
    }
}

/// What a line says of a datatype.
fn datatype_line(alloc: Global, line: &str) -> Result<TypeLine, Failure> {
    match event_of(alloc, line)? {
        Event::Datatype(line) => Ok(line),
        _ => Err(Failure::Row),
    }
}

/// What a line states.
fn event_of(alloc: Global, line: &str) -> Result<Event, Failure> {
    let mut texts = Texts::new(alloc);
    match parse_line(&mut texts, Version::One, line.as_bytes()) {
        Ok(Some(stated)) => Ok(stated.event),
        Ok(None) | Err(ParseError::Fault(_)) => Err(Failure::Row),
        Err(ParseError::Memory) => Err(Failure::Memory),
    }
}

/// Makes a datatype.
fn made(table: &mut LayoutTable, name: Name, make: Make) -> Result<Outcome, Failure> {
    if table.types().types() == u32::MAX {
        return Err(Failure::Row);
    }
    match table.make(&name, make) {
        Ok(id) => Ok(Outcome::Made(name, id)),
        Err(TypeError::Fault(fault)) => Ok(Outcome::Refused(fault)),
        Err(TypeError::Memory) => Err(Failure::Memory),
    }
}

/// The outcome of a change, or that the table refuses it.
fn changed(answer: Result<(), TypeFault>, outcome: Outcome) -> Outcome {
    match answer {
        Ok(()) => outcome,
        Err(fault) => Outcome::Refused(fault),
    }
}

/// Prints why a table refuses a line.
pub fn print_refused(rt: HostRuntime, fault: TypeFault) -> io::Result<()> {
    println!(rt; "= {}", reason_of(fault).word())
}

/// The reason of a line that a table refuses.
fn reason_of(fault: TypeFault) -> FormReason {
    match fault {
        TypeFault::UnknownType => FormReason::UnknownType,
        TypeFault::NameInUse => FormReason::NameInUse,
        TypeFault::NegativeCount => FormReason::NegativeCount,
        TypeFault::BadSubarray => FormReason::BadSubarray,
        TypeFault::TooManyElements => FormReason::TooManyElements,
        TypeFault::OutOfSpace => FormReason::OutOfSpace,
    }
}
