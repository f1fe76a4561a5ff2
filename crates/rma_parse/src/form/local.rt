//! The fields of local accesses.
ghost use Rattle.std.specs.Prelude.{◌≤◌, length};
ghost use Rattle.rma_field.specs.Steps.{Gives};
ghost use Rattle.rma_parse.specs.inside.Continued.{local_event, closed_event};

use crate::form::rma::buffer_at;
use rma_call::LocalAccess;
use rma_field::{ParseError, Texts};
use rma_form::{Event, LocalLine};

/// The access of the memory that the fields say.
pub(crate) fn access(
    texts: &mut Texts,
    access: LocalAccess,
    fields: &[&[u8]],
) -> Result<Event, ParseError>
    requires { 3 ≤ length fields.now }
    ensures { Gives result (closed_event (local_event access fields.now)) }
{
    let buffer = buffer_at(texts, fields, 0)?;
    Ok(Event::Local(LocalLine { access, buffer }))
}
