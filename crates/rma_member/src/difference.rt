//! Calls that declare another thing than the first call that declares the same name.
ghost use Rattle.std.specs.Prelude.{◌≡◌, IfOk, OnOk, ◌++◌, []};
ghost use Rattle.std.specs.List.{cons_option};
ghost use Rattle.rma_member.specs.Difference.{difference, differences};

use crate::declaration::{Attributes, Declaration, Declarations};
use rma_base::{MatchReason, Memory, Sequence};
use rma_call::MatchFault;
use std::alloc::Global;

/// The faults of the declarations that do not agree with the first one of the same name.
///
/// # Errors
///
/// `Memory` where memory ran out.
pub fn differences<T: Attributes>(
    alloc: Global,
    reason: MatchReason,
    declarations: &Declarations<T>,
) -> Result<Sequence<MatchFault>, Memory>
    ensures { IfOk result (λ faults. faults ≡ differences T.agrees reason declarations.now) }
{
    let mut faults = Sequence::new(alloc);
    for declaration in declarations.as_slice() {
        match push_some(&mut faults, difference(reason, declarations, declaration)) {
            Ok(()) => {}
            Err(error) => return Err(error),
        }
    }
    Ok(faults)
}

/// The fault of a declaration, if it does not agree with the first one of the same name.
fn difference<T: Attributes>(
    reason: MatchReason,
    declarations: &Declarations<T>,
    declaration: &Declaration<T>,
) -> Option<MatchFault>
    ensures { result ≡ difference T.agrees reason declarations.now declaration.now }
{
    match declarations.first(&declaration.name) {
        Some(first) if !declaration.attributes.agrees_with(&first.attributes) => Some(MatchFault {
            reason,
            rank: declaration.rank,
            line: declaration.line,
            other: Some((first.rank, first.line)),
        }),
        _ => None,
    }
}

/// Puts a fault, if there is one, at the end of a list.
///
/// # Errors
///
/// `Memory` where memory ran out.
pub fn push_some(faults: &mut Sequence<MatchFault>, fault: Option<MatchFault>) -> Result<(), Memory>
    ensures { OnOk result (faults.new ≡ faults.old ++ cons_option fault []) }
{
    match fault {
        Some(fault) => faults.push(fault),
        None => Ok(()),
    }
}
