//! The fields of datatypes.
ghost use Rattle.std.specs.Prelude.{◌≡◌, ◌≤◌, ◌++◌, ◌∷◌, [], length};
ghost use Rattle.rma_base.specs.declared.version.Version.{Version};
ghost use Rattle.rma_field.specs.Steps.{Gives};
ghost use Rattle.rma_field.specs.Texts.{texts_at};
ghost use Rattle.rma_form.specs.Forms.{event_of};
ghost use Rattle.rma_form.specs.declared.event.type_line.TypeLine.TheVariants as typed;
ghost use Rattle.rma_form.specs.inside.Places.{first_texts};

use rma_base::Name;
use rma_datatype::Make;
use rma_field::{ParseError, Texts, int, integer, order_field};
use rma_form::{DISTANCE, Event, LineForm, TypeLine, groups};

pub(crate) fn contiguous(texts: &mut Texts, fields: &[&[u8]]) -> Result<Event, ParseError>
    requires { 3 ≤ length fields.now }
    ensures { Gives result (event_of Version.Two LineForm.Contiguous (first_texts fields.now 3)) }
{
    let name = texts.name(fields[0])?;
    let count = int(fields[1])?;
    let old = texts.name(fields[2])?;
    Ok(made(name, Make::Contiguous { count, old }))
}

pub(crate) fn vector(texts: &mut Texts, fields: &[&[u8]]) -> Result<Event, ParseError>
    requires { 5 ≤ length fields.now }
    ensures { Gives result (event_of Version.Two LineForm.Vector (first_texts fields.now 5)) }
{
    let name = texts.name(fields[0])?;
    let count = int(fields[1])?;
    let length = int(fields[2])?;
    let stride = int(fields[3])?;
    let old = texts.name(fields[4])?;
    let make = Make::Vector {
        count,
        length,
        stride,
        old,
    };
    Ok(made(name, make))
}

pub(crate) fn hvector(texts: &mut Texts, fields: &[&[u8]]) -> Result<Event, ParseError>
    requires { 5 ≤ length fields.now }
    ensures { Gives result (event_of Version.Two LineForm.Hvector (first_texts fields.now 5)) }
{
    let name = texts.name(fields[0])?;
    let count = int(fields[1])?;
    let length = int(fields[2])?;
    let stride = integer(fields[3], DISTANCE, DISTANCE)?;
    let old = texts.name(fields[4])?;
    let make = Make::Hvector {
        count,
        length,
        stride,
        old,
    };
    Ok(made(name, make))
}

pub(crate) fn resized(texts: &mut Texts, fields: &[&[u8]]) -> Result<Event, ParseError>
    requires { 4 ≤ length fields.now }
    ensures { Gives result (event_of Version.Two LineForm.Resized (first_texts fields.now 4)) }
{
    let name = texts.name(fields[0])?;
    let old = texts.name(fields[1])?;
    let lower = integer(fields[2], DISTANCE, DISTANCE)?;
    let extent = integer(fields[3], DISTANCE, DISTANCE)?;
    Ok(made(name, Make::Resized { old, lower, extent }))
}

pub(crate) fn indexed(
    texts: &mut Texts,
    fields: &[&[u8]],
    rest: &[&[u8]],
) -> Result<Event, ParseError>
    requires { 2 ≤ length fields.now }
    ensures { Gives result (event_of Version.Two LineForm.Indexed (first_texts fields.now 2 ++ texts_at rest.now)) }
{
    let name = texts.name(fields[0])?;
    let old = texts.name(fields[1])?;
    let blocks = groups(texts, rest)?;
    Ok(made(name, Make::Indexed { old, blocks }))
}

pub(crate) fn hindexed(
    texts: &mut Texts,
    fields: &[&[u8]],
    rest: &[&[u8]],
) -> Result<Event, ParseError>
    requires { 2 ≤ length fields.now }
    ensures { Gives result (event_of Version.Two LineForm.Hindexed (first_texts fields.now 2 ++ texts_at rest.now)) }
{
    let name = texts.name(fields[0])?;
    let old = texts.name(fields[1])?;
    let blocks = groups(texts, rest)?;
    Ok(made(name, Make::Hindexed { old, blocks }))
}

pub(crate) fn indexed_block(
    texts: &mut Texts,
    fields: &[&[u8]],
    rest: &[&[u8]],
) -> Result<Event, ParseError>
    requires { 3 ≤ length fields.now }
    ensures { Gives result (event_of Version.Two LineForm.IndexedBlock (first_texts fields.now 3 ++ texts_at rest.now)) }
{
    let name = texts.name(fields[0])?;
    let length = int(fields[1])?;
    let old = texts.name(fields[2])?;
    let displacements = groups(texts, rest)?;
    let make = Make::IndexedBlock {
        length,
        old,
        displacements,
    };
    Ok(made(name, make))
}

pub(crate) fn structure(
    texts: &mut Texts,
    fields: &[&[u8]],
    rest: &[&[u8]],
) -> Result<Event, ParseError>
    requires { 1 ≤ length fields.now }
    ensures { Gives result (event_of Version.Two LineForm.Struct (first_texts fields.now 1 ++ texts_at rest.now)) }
{
    let name = texts.name(fields[0])?;
    let members = groups(texts, rest)?;
    Ok(made(name, Make::Struct { members }))
}

pub(crate) fn subarray(
    texts: &mut Texts,
    fields: &[&[u8]],
    rest: &[&[u8]],
) -> Result<Event, ParseError>
    requires { 3 ≤ length fields.now }
    ensures { Gives result (event_of Version.Two LineForm.Subarray (first_texts fields.now 3 ++ texts_at rest.now)) }
{
    let name = texts.name(fields[0])?;
    let order = order_field(fields[1])?;
    let old = texts.name(fields[2])?;
    let dimensions = groups(texts, rest)?;
    let make = Make::Subarray {
        order,
        old,
        dimensions,
    };
    Ok(made(name, make))
}

pub(crate) fn commit(texts: &mut Texts, name: &[u8]) -> Result<Event, ParseError>
    ensures { Gives result (event_of Version.Two LineForm.Commit (name.now ∷ [])) }
{
    let name = texts.name(name)?;
    Ok(Event::Datatype(TypeLine::Commit { name }))
}

pub(crate) fn free(texts: &mut Texts, name: &[u8]) -> Result<Event, ParseError>
    ensures { Gives result (event_of Version.Two LineForm.FreeType (name.now ∷ [])) }
{
    let name = texts.name(name)?;
    Ok(Event::Datatype(TypeLine::Free { name }))
}

fn made(name: Name, make: Make) -> Event
    ensures { result ≡ Event.Datatype (typed.Make name make) }
{
    Event::Datatype(TypeLine::Make { name, make })
}
