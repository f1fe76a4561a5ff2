//! The fields of calls that access the part of a target.
ghost use Rattle.std.specs.Prelude.{◌≡◌, ◌≤◌, ◌+◌, length};
ghost use Rattle.rma_field.specs.Steps.{Gives};
ghost use Rattle.rma_form.specs.Accesses.{rma};
ghost use Rattle.rma_form.specs.Forms.{event_of};
ghost use Rattle.rma_parse.specs.inside.Continued.{IsBufferAt, IsTransferAt, access_of, closed_event, transfer_event, fetching_event, requested_event};
ghost use Rattle.rma_form.specs.inside.Places.{first_texts};

use rma_base::limits::SPACE;
use rma_base::{Name, Rank, Version};
use rma_datatype::Op;
use rma_field::{ParseError, Texts, natural, operation_field, target_field};
use rma_form::{Access, Buffer, Event, LineForm, RmaLine, Transfer};

// The greatest number of elements.
const COUNT: u64 = 2_147_483_647;

/// What a transfer does.
#[derive(Clone, Copy)]
pub(crate) enum Movement {
    /// `put`
    Put,
    /// `get`
    Get,
    /// `acc`
    Accumulate(Op),
}

// A transfer, and where it goes.
#[derive(Drop)]
struct Aimed {
    window: Name,
    target: Option<Rank>,
    displacement: u64,
    transfer: Transfer,
}

/// The call with a transfer, whose fields begin at this place.
pub(crate) fn transfer(
    texts: &mut Texts,
    version: Version,
    movement: Movement,
    request: Option<Name>,
    fields: &[&[u8]],
    from: usize,
) -> Result<Event, ParseError>
    requires { from + 8 ≤ length fields.now }
    ensures { Gives result (closed_event (transfer_event version movement request fields.now from)) }
{
    let Aimed {
        window,
        target,
        displacement,
        transfer,
    } = transfer_at(texts, version, fields, from)?;
    let access = access(movement, transfer);
    Ok(event(window, target, displacement, access, request))
}

/// The call with a request and a transfer.
pub(crate) fn requested(
    texts: &mut Texts,
    version: Version,
    movement: Movement,
    fields: &[&[u8]],
) -> Result<Event, ParseError>
    requires { 9 ≤ length fields.now }
    ensures { Gives result (closed_event (requested_event version movement fields.now)) }
{
    let request = texts.request(fields[0])?;
    transfer(texts, version, movement, Some(request), fields, 1)
}

pub(crate) fn accumulate(
    texts: &mut Texts,
    version: Version,
    fields: &[&[u8]],
) -> Result<Event, ParseError>
    requires { 9 ≤ length fields.now }
    ensures { Gives result (event_of version LineForm.Accumulate (first_texts fields.now 9)) }
{
    let operation = operation_field(fields[0])?;
    let movement = Movement::Accumulate(operation);
    transfer(texts, version, movement, None, fields, 1)
}

pub(crate) fn raccumulate(
    texts: &mut Texts,
    version: Version,
    fields: &[&[u8]],
) -> Result<Event, ParseError>
    requires { 10 ≤ length fields.now }
    ensures { Gives result (event_of version LineForm.Raccumulate (first_texts fields.now 10)) }
{
    let request = texts.request(fields[0])?;
    let operation = operation_field(fields[1])?;
    let movement = Movement::Accumulate(operation);
    transfer(texts, version, movement, Some(request), fields, 2)
}

pub(crate) fn get_accumulate(
    texts: &mut Texts,
    version: Version,
    fields: &[&[u8]],
) -> Result<Event, ParseError>
    requires { 12 ≤ length fields.now }
    ensures { Gives result (event_of version LineForm.GetAccumulate (first_texts fields.now 12)) }
{
    let operation = operation_field(fields[0])?;
    fetching(texts, version, operation, None, fields, 1)
}

pub(crate) fn rget_accumulate(
    texts: &mut Texts,
    version: Version,
    fields: &[&[u8]],
) -> Result<Event, ParseError>
    requires { 13 ≤ length fields.now }
    ensures { Gives result (event_of version LineForm.RgetAccumulate (first_texts fields.now 13)) }
{
    let request = texts.request(fields[0])?;
    let operation = operation_field(fields[1])?;
    fetching(texts, version, operation, Some(request), fields, 2)
}

// The call with a transfer and a result, whose fields begin at this place.
fn fetching(
    texts: &mut Texts,
    version: Version,
    operation: Op,
    request: Option<Name>,
    fields: &[&[u8]],
    from: usize,
) -> Result<Event, ParseError>
    requires { from + 11 ≤ length fields.now }
    ensures { Gives result (closed_event (fetching_event version operation request fields.now from)) }
{
    let Aimed {
        window,
        target,
        displacement,
        transfer,
    } = transfer_at(texts, version, fields, from)?;
    let result = buffer_at(texts, fields, from + 8)?;
    let access = Access::GetAccumulate {
        operation,
        transfer,
        result,
    };
    Ok(event(window, target, displacement, access, request))
}

pub(crate) fn fetch_and_op(
    texts: &mut Texts,
    version: Version,
    fields: &[&[u8]],
) -> Result<Event, ParseError>
    requires { 7 ≤ length fields.now }
    ensures { Gives result (event_of version LineForm.FetchAndOp (first_texts fields.now 7)) }
{
    let operation = operation_field(fields[0])?;
    let window = texts.name(fields[1])?;
    let target = target_field(version, fields[2])?;
    let displacement = natural(fields[3], 0, SPACE)?;
    let datatype = texts.name(fields[4])?;
    let origin = natural(fields[5], 0, SPACE)?;
    let result = natural(fields[6], 0, SPACE)?;
    let access = Access::FetchAndOp {
        operation,
        datatype,
        origin,
        result,
    };
    Ok(event(window, target, displacement, access, None))
}

pub(crate) fn compare_and_swap(
    texts: &mut Texts,
    version: Version,
    fields: &[&[u8]],
) -> Result<Event, ParseError>
    requires { 7 ≤ length fields.now }
    ensures { Gives result (event_of version LineForm.CompareAndSwap (first_texts fields.now 7)) }
{
    let window = texts.name(fields[0])?;
    let target = target_field(version, fields[1])?;
    let displacement = natural(fields[2], 0, SPACE)?;
    let datatype = texts.name(fields[3])?;
    let origin = natural(fields[4], 0, SPACE)?;
    let compare = natural(fields[5], 0, SPACE)?;
    let result = natural(fields[6], 0, SPACE)?;
    let access = Access::CompareAndSwap {
        datatype,
        origin,
        compare,
        result,
    };
    Ok(event(window, target, displacement, access, None))
}

// The transfer whose fields begin at this place.
#[inline(always)]
fn transfer_at(
    texts: &mut Texts,
    version: Version,
    fields: &[&[u8]],
    from: usize,
) -> Result<Aimed, ParseError>
    requires { from + 8 ≤ length fields.now }
    ensures { IsTransferAt version fields.now from result }
{
    let window = texts.name(fields[from])?;
    let target = target_field(version, fields[from + 1])?;
    let displacement = natural(fields[from + 2], 0, SPACE)?;
    let target_count = natural(fields[from + 3], 0, COUNT)? as u32;
    let target_type = texts.name(fields[from + 4])?;
    let address = natural(fields[from + 5], 0, SPACE)?;
    let count = natural(fields[from + 6], 0, COUNT)? as u32;
    let datatype = texts.name(fields[from + 7])?;
    let origin = Buffer {
        address,
        count,
        datatype,
    };
    Ok(Aimed {
        window,
        target,
        displacement,
        transfer: Transfer {
            target_count,
            target_type,
            origin,
        },
    })
}

/// The buffer whose fields begin at this place.
pub(crate) fn buffer_at(
    texts: &mut Texts,
    fields: &[&[u8]],
    from: usize,
) -> Result<Buffer, ParseError>
    requires { from + 3 ≤ length fields.now }
    ensures { IsBufferAt fields.now from result }
{
    let address = natural(fields[from], 0, SPACE)?;
    let count = natural(fields[from + 1], 0, COUNT)? as u32;
    let datatype = texts.name(fields[from + 2])?;
    Ok(Buffer {
        address,
        count,
        datatype,
    })
}

// What a transfer does.
fn access(movement: Movement, transfer: Transfer) -> Access
    ensures { result ≡ access_of movement transfer }
{
    match movement {
        Movement::Put => Access::Put(transfer),
        Movement::Get => Access::Get(transfer),
        Movement::Accumulate(operation) => Access::Accumulate {
            operation,
            transfer,
        },
    }
}

fn event(
    window: Name,
    target: Option<Rank>,
    displacement: u64,
    access: Access,
    request: Option<Name>,
) -> Event
    ensures { result ≡ rma window target displacement access request }
{
    Event::Rma {
        line: RmaLine {
            window,
            target,
            displacement,
            access,
        },
        request,
    }
}
