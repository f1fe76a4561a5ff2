//! Judging the lines that speak of datatypes.
ghost use Rattle.std.specs.Prelude.{◌≡◌, IfOk};
ghost use Rattle.rma_form.specs.declared.event.Event.TheVariants.{Datatype};
ghost use Rattle.rma_judge.specs.Judging.{fault_reason};
ghost use Rattle.rma_judge.specs.inside.BookState.{IsJudged, IsChanged, refused_in};

use crate::book::Book;
use rma_base::{FormReason, Memory, Name};
use rma_datatype::Make;
use rma_form::TypeLine;
use rma_layout::LayoutTable;
use rma_type::{TypeError, TypeFault};

impl Book {
    /// Judges a line that speaks of a datatype, and takes it where it is good. It answers why it is bad, if it is.
    ///
    /// # Errors
    ///
    /// `Memory` where memory ran out: the book no longer represents the events that it took.
    pub fn datatype(&mut self, line: TypeLine) -> Result<Option<FormReason>, Memory>
        ensures { IfOk result (IsJudged self.old self.new (Datatype line)) }
    {
        match self.later_reason() {
            Some(reason) => Ok(Some(reason)),
            None => change(&mut self.types, line),
        }
    }
}

/// Changes the datatypes as the line says, or answers why it is bad.
fn change(table: &mut LayoutTable, line: TypeLine) -> Result<Option<FormReason>, Memory>
    ensures { IfOk result (IsChanged table.old table.new line) }
{
    match line {
        TypeLine::Make { name, make } => made(table, name, make),
        TypeLine::Commit { name } => Ok(fault_in(table.commit(&name))),
        TypeLine::Free { name } => Ok(fault_in(table.free(&name))),
    }
}

/// Makes the datatype, or answers why it may not be made.
fn made(table: &mut LayoutTable, name: Name, make: Make) -> Result<Option<FormReason>, Memory>
    ensures { IfOk result (IsChanged table.old table.new (TypeLine.Make name make)) }
{
    if table.types().types() == u32::MAX {
        return Err(Memory);
    }
    match table.make(&name, make) {
        Ok(_) => Ok(None),
        Err(TypeError::Fault(fault)) => Ok(Some(fault_reason(fault))),
        Err(TypeError::Memory) => Err(Memory),
    }
}

/// Why a table refused a change, if it did.
fn fault_in(changed: Result<(), TypeFault>) -> Option<FormReason>
    ensures { result ≡ refused_in changed }
{
    match changed {
        Ok(()) => None,
        Err(fault) => Some(fault_reason(fault)),
    }
}

/// The reason that stands for the refusal of a table.
fn fault_reason(fault: TypeFault) -> FormReason
    ensures { result ≡ fault_reason fault }
{
    match fault {
        TypeFault::UnknownType => FormReason::UnknownType,
        TypeFault::NameInUse => FormReason::NameInUse,
        TypeFault::NegativeCount => FormReason::NegativeCount,
        TypeFault::BadSubarray => FormReason::BadSubarray,
        TypeFault::TooManyElements => FormReason::TooManyElements,
        TypeFault::OutOfSpace => FormReason::OutOfSpace,
    }
}
