//! Reading the fields of a line, by its form.
ghost use Rattle.std.specs.Prelude.{◌≤◌, length};
ghost use Rattle.rma_field.specs.Steps.{Gives};
ghost use Rattle.rma_field.specs.Texts.{texts_at};
ghost use Rattle.rma_form.specs.Forms.{event_of, form_at};

mod datatype;
mod epoch;
mod frame;
mod local;
mod message;
mod moving;
mod rma;
mod window;

use rma::Movement;
use rma_base::Version;
use rma_call::LocalAccess;
use rma_field::{ParseError, Texts};
use rma_form::{Event, LineForm, behind};

/// What the further fields of a line of the form state.
pub(crate) fn read_fields(
    kept: &mut Texts,
    version: Version,
    form: LineForm,
    fields: &[&[u8]],
) -> Result<Event, ParseError>
    requires { length (form_at form).kinds ≤ length fields.now }
    ensures { Gives result (event_of version form (texts_at fields.now)) }
{
    match form {
        LineForm::Header => frame::header(version, fields[0], fields[1], fields[2]),
        LineForm::End => Ok(Event::End),
        LineForm::Comm => frame::comm(kept, version, fields[0], fields[1]),
        LineForm::Barrier => frame::barrier(kept, fields[0]),
        LineForm::Send => message::send(kept, version, fields[0], fields[1], fields[2]),
        LineForm::Recv => message::recv(kept, version, fields[0], fields[1], fields[2]),
        LineForm::Isend => message::isend(
            kept, version, fields[0], fields[1], fields[2], fields[3],
        ),
        LineForm::Irecv => message::irecv(kept, fields[0], fields[1]),
        LineForm::Wait => message::wait(kept, version, fields[0], behind(fields, 1)),
        LineForm::Create => window::create(
            kept, fields[0], fields[1], fields[2], fields[3], fields[4], fields[5], fields[6],
        ),
        LineForm::Free => window::free(kept, fields[0]),
        LineForm::Fence => epoch::fence(kept, version, fields[0], behind(fields, 1)),
        LineForm::Post => epoch::post(kept, version, fields[0], fields[1], behind(fields, 2)),
        LineForm::Start => epoch::start(kept, version, fields[0], fields[1], behind(fields, 2)),
        LineForm::Complete => epoch::complete(kept, fields[0]),
        LineForm::Expwait => epoch::expwait(kept, fields[0]),
        LineForm::Lock => epoch::lock(
            kept,
            version,
            fields[0],
            fields[1],
            fields[2],
            behind(fields, 3),
        ),
        LineForm::Unlock => epoch::unlock(kept, version, fields[0], fields[1]),
        LineForm::LockAll => epoch::lock_all(kept, version, fields[0], behind(fields, 1)),
        LineForm::UnlockAll => epoch::unlock_all(kept, fields[0]),
        LineForm::Flush => epoch::flush(kept, version, fields[0], fields[1]),
        LineForm::FlushAll => epoch::flush_all(kept, fields[0]),
        LineForm::FlushLocal => epoch::flush_local(kept, version, fields[0], fields[1]),
        LineForm::FlushLocalAll => epoch::flush_local_all(kept, fields[0]),
        LineForm::Sync => epoch::sync(kept, fields[0]),
        LineForm::Dynamic => window::dynamic(kept, fields[0], fields[1], fields[2]),
        LineForm::Attach => window::attach(kept, fields[0], fields[1], fields[2]),
        LineForm::Detach => window::detach(kept, fields[0], fields[1]),
        LineForm::Bcast => moving::bcast(kept, version, fields[0], fields[1], fields[2]),
        LineForm::Scatter => moving::scatter(kept, version, fields[0], fields[1], fields[2]),
        LineForm::Gather => moving::gather(kept, version, fields[0], fields[1], fields[2]),
        LineForm::Reduce => moving::reduce(kept, version, fields[0], fields[1], fields[2]),
        LineForm::Allreduce => moving::allreduce(kept, fields[0], fields[1]),
        LineForm::Allgather => moving::allgather(kept, fields[0], fields[1]),
        LineForm::Alltoall => moving::alltoall(kept, fields[0], fields[1]),
        LineForm::Contiguous => datatype::contiguous(kept, fields),
        LineForm::Vector => datatype::vector(kept, fields),
        LineForm::Hvector => datatype::hvector(kept, fields),
        LineForm::Indexed => datatype::indexed(kept, fields, behind(fields, 2)),
        LineForm::Hindexed => datatype::hindexed(kept, fields, behind(fields, 2)),
        LineForm::IndexedBlock => datatype::indexed_block(kept, fields, behind(fields, 3)),
        LineForm::Struct => datatype::structure(kept, fields, behind(fields, 1)),
        LineForm::Resized => datatype::resized(kept, fields),
        LineForm::Subarray => datatype::subarray(kept, fields, behind(fields, 3)),
        LineForm::Commit => datatype::commit(kept, fields[0]),
        LineForm::FreeType => datatype::free(kept, fields[0]),
        LineForm::Put => rma::transfer(kept, version, Movement::Put, None, fields, 0),
        LineForm::Get => rma::transfer(kept, version, Movement::Get, None, fields, 0),
        LineForm::Accumulate => rma::accumulate(kept, version, fields),
        LineForm::GetAccumulate => rma::get_accumulate(kept, version, fields),
        LineForm::FetchAndOp => rma::fetch_and_op(kept, version, fields),
        LineForm::CompareAndSwap => rma::compare_and_swap(kept, version, fields),
        LineForm::Rput => rma::requested(kept, version, Movement::Put, fields),
        LineForm::Rget => rma::requested(kept, version, Movement::Get, fields),
        LineForm::Raccumulate => rma::raccumulate(kept, version, fields),
        LineForm::RgetAccumulate => rma::rget_accumulate(kept, version, fields),
        LineForm::Load => local::access(kept, LocalAccess::Load, fields),
        LineForm::Store => local::access(kept, LocalAccess::Store, fields),
        LineForm::Poll => local::access(kept, LocalAccess::Poll, fields),
    }
}
