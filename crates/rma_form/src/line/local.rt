//! The lines of local accesses.
ghost use Rattle.std.specs.Prelude.{◌≡◌, ◌∷◌, [], IfOk, decimal, string_bytes};
ghost use Rattle.std.specs.List.{join_with_byte};
ghost use Rattle.rma_form.specs.Canonical.{spelled};
ghost use Rattle.rma_form.specs.inside.AccessWords.{access_verb};

use crate::event::{Event, LocalLine};
use rma_base::Memory;
use rma_call::LocalAccess;
use std::alloc::Global;

/// The line of a local access, without its site.
pub(crate) fn line(alloc: Global, line: &LocalLine) -> Result<String, Memory>
    ensures { IfOk result (λ text. string_bytes text ≡ join_with_byte 32 (spelled (Event.Local line.now))) }
{
    let verb = verb(line.access);
    access_line(alloc, verb, line)
}

// The verb of an access.
fn verb(access: LocalAccess) -> &'static str
    ensures { result.now ≡ access_verb access }
{
    match access {
        LocalAccess::Load => "load",
        LocalAccess::Store => "store",
        LocalAccess::Poll => "poll",
    }
}

// The line with this verb.
fn access_line(alloc: Global, verb: &str, line: &LocalLine) -> Result<String, Memory>
    ensures { IfOk result (λ text. string_bytes text ≡ join_with_byte 32 (verb.now ∷ decimal line.now.buffer.address ∷ decimal line.now.buffer.count ∷ line.now.buffer.datatype ∷ [])) }
{
    let address = line.buffer.address;
    let count = line.buffer.count;
    let datatype = line.buffer.datatype.text();
    Ok(format!(in alloc; "{verb} {address} {count} {datatype}")?)
}
