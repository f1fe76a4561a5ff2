//! Accesses that are made again elsewhere: for another target, at another displacement, or with other addresses.
ghost use Rattle.std.specs.Prelude.{◌≡◌, IfOk, IfSome, true};
ghost use Rattle.rma_call.specs.Rma.{access_of, placed};
ghost use Rattle.rma_buffer.specs.CallElsewhere.{IsLocalCallElsewhere, IsRmaCallElsewhere};
ghost use Rattle.rma_elsewhere.specs.Elsewhere.{MakesNone};

use rma_base::Memory;
use rma_buffer::{local_elsewhere, one_sided_elsewhere};
use rma_call::{LocalCall, Placement, RmaRef};
use rma_known::Particulars;
use std::alloc::Global;

/// Whether neither a call nor its particulars have a request.
#[inline]
fn makes_none(requests: bool, to: &Particulars) -> bool
    ensures { result ≡ true → MakesNone requests to.now }
{
    !requests && !to.requests()
}

/// Where an access without a request is made, with other particulars. None, where it may be bad there, or was itself made
/// elsewhere.
#[inline]
pub fn place_elsewhere(
    requests: bool,
    call: RmaRef<'_>,
    from: &[u64],
    to: &Particulars,
) -> Option<Placement>
    ensures none { IfSome result (λ place. MakesNone requests to.now) }
    ensures there { IfSome result (λ place. IsRmaCallElsewhere (access_of call.entry) from.now to.now.numbers (placed (access_of call.entry) place)) }
{
    match call {
        RmaRef::Stated(call) if makes_none(requests, to) => one_sided_elsewhere(
            call,
            from,
            to.numbers(),
        ),
        _ => None,
    }
}

/// A local access without a request, with other particulars. None, where it may be bad there.
#[inline]
pub fn access_elsewhere(
    alloc: Global,
    requests: bool,
    call: &LocalCall,
    from: &[u64],
    to: &Particulars,
) -> Result<Option<LocalCall>, Memory>
    ensures none { IfOk result (λ found. IfSome found (λ moved. MakesNone requests to.now)) }
    ensures there { IfOk result (λ found. IfSome found (λ moved. IsLocalCallElsewhere call.now from.now to.now.numbers moved)) }
{
    if !makes_none(requests, to) {
        return Ok(None);
    }
    local_elsewhere(alloc, call, from, to.numbers())
}
