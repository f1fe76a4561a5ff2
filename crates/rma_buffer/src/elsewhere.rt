//! Calls that are made again elsewhere: at another target, at another displacement, with buffers at other addresses.
ghost use Rattle.std.specs.Prelude.{◌≡◌, ◌≤◌, ◌∷◌, [], pos, ◌-ℤ◌, ◌↔◌, IfOk, IfSome, IsTrue};
ghost use Rattle.rma_base.specs.Limits.{address_limit};
ghost use Rattle.rma_bytes.specs.Runs.{IsInBounds, end_of};
ghost use Rattle.rma_layout.specs.Refusal.{is_between};
ghost use Rattle.rma_layout.specs.declared.space.Space.TheVariants as Space;
ghost use Rattle.rma_typemap.specs.inside.Near.{IsNear};
ghost use Rattle.rma_call.specs.Rma.{placed};
ghost use Rattle.rma_buffer.specs.CallElsewhere.{IsLocalCallElsewhere, IsRmaCallElsewhere};
ghost use Rattle.rma_buffer.specs.inside.Elsewhere.{IsMoved, IsMovedCall, IsMovedLocal, IsPlaceOf, IsWithin, LiesAt};

use rma_base::limits::SPACE;
use rma_base::{Memory, Rank};
use rma_bytes::{Distance, Layout, Run};
use rma_call::{LocalCall, Placement, RmaCall, RmaKind};
use std::alloc::Global;

/// Where a call is made: what the numbers of its line say. A buffer that a call of its kind does not have is put at the origin.
#[derive(Clone, Copy, Debug)]
struct Place {
    /// The target.
    target: Rank,
    /// The displacement there.
    displacement: u64,
    /// The address of the origin.
    origin: u64,
    /// The address of the result.
    result: u64,
    /// The address of the buffer with which the target is compared.
    compare: u64,
}

/// Where the same call is made where other numbers say. None where its buffers would not lie in the space of addresses there, or
/// the numbers are not those of such a call.
///
/// `from` says where the call is made, and `to` where the other one is: the target, the displacement, and the addresses of the
/// caller's buffers in the order of the line.
pub fn one_sided_elsewhere(call: &RmaCall, from: &[u64], to: &[u64]) -> Option<Placement>
    ensures { IfSome result (λ place. IsRmaCallElsewhere call.now from.now to.now (placed call.now place)) }
{
    if call.target.is_none() {
        return None;
    }
    let from = place_of(call.kind, from)?;
    let to = place_of(call.kind, to)?;
    placement(call, &from, &to)
}

/// The same access where another number says. None where its memory would not lie in the space of addresses there, or the
/// numbers are not those of such an access.
///
/// `from` says where the access is made, and `to` where the other one is: the address of the memory.
///
/// # Errors
///
/// Memory, where there is none left.
pub fn local_elsewhere(
    alloc: Global,
    call: &LocalCall,
    from: &[u64],
    to: &[u64],
) -> Result<Option<LocalCall>, Memory>
    ensures { IfOk result (λ found. IfSome found (IsLocalCallElsewhere call.now from.now to.now)) }
{
    let Some(from) = address_of(from) else {
        return Ok(None);
    };
    let Some(to) = address_of(to) else {
        return Ok(None);
    };
    moved_local(alloc, call, from, to)
}

// Where a call of a kind is made whose numbers these are, if they are those of such a call.
fn place_of(kind: RmaKind, numbers: &[u64]) -> Option<Place>
    ensures { IfSome result (IsPlaceOf kind numbers.now) }
{
    match (kind, numbers) {
        (RmaKind::Put | RmaKind::Get | RmaKind::Accumulate(_), [target, displacement, origin]) => {
            place_within(*target, *displacement, *origin, *origin, *origin)
        }
        (
            RmaKind::GetAccumulate(_) | RmaKind::FetchAndOp(_),
            [target, displacement, origin, into],
        ) => place_within(*target, *displacement, *origin, *into, *origin),
        (RmaKind::CompareAndSwap, [target, displacement, origin, compare, into]) => {
            place_within(*target, *displacement, *origin, *into, *compare)
        }
        _ => None,
    }
}

// The place of these numbers, if they can be those of a call.
fn place_within(
    target: u64,
    displacement: u64,
    origin: u64,
    into: u64,
    compare: u64,
) -> Option<Place>
    ensures target { IfSome result (λ it. it.target.0 ≡ target) }
    ensures displacement { IfSome result (λ it. it.displacement ≡ displacement) }
    ensures origin { IfSome result (λ it. it.origin ≡ origin) }
    ensures into { IfSome result (λ it. it.result ≡ into) }
    ensures compare { IfSome result (λ it. it.compare ≡ compare) }
    ensures within { IfSome result IsWithin }
{
    if origin > SPACE || into > SPACE || compare > SPACE {
        return None;
    }
    let target = u32::try_from(target).ok()?;
    Some(Place {
        target: Rank(target),
        displacement,
        origin,
        result: into,
        compare,
    })
}

// Where a local access is made whose number this is, if it is that of one.
fn address_of(numbers: &[u64]) -> Option<u64>
    ensures is { IfSome result (λ address. numbers.now ≡ address ∷ []) }
    ensures within { IfSome result (λ address. address ≤ address_limit) }
{
    match numbers {
        [address] if *address <= SPACE => Some(*address),
        _ => None,
    }
}

// Where the call is made at another place, where its buffers lie in the space there.
fn placement(call: &RmaCall, from: &Place, to: &Place) -> Option<Placement>
    requires from { IsWithin from.now }
    requires to { IsWithin to.now }
    ensures { IfSome result (λ place. IsMovedCall from.now to.now call.now (placed call.now place)) }
{
    let origin = Distance::between(from.origin, to.origin);
    let into = Distance::between(from.result, to.result);
    let compare = Distance::between(from.compare, to.compare);
    if !lies_if(&call.origin, origin.bytes())
        || !lies_if(&call.result, into.bytes())
        || !lies_if(&call.compare, compare.bytes())
    {
        return None;
    }
    Some(Placement {
        target: to.target,
        displacement: to.displacement,
        origin,
        result: into,
        compare,
    })
}

// The access at another address, where its memory lies in the space there.
fn moved_local(
    alloc: Global,
    call: &LocalCall,
    from: u64,
    to: u64,
) -> Result<Option<LocalCall>, Memory>
    requires from { from ≤ address_limit }
    requires to { to ≤ address_limit }
    ensures { IfOk result (λ found. IfSome found (IsMovedLocal from to call.now)) }
{
    let by = Distance::between(from, to).bytes();
    if !lies_at(&call.layout, by) {
        return Ok(None);
    }
    let layout = moved(alloc, &call.layout, by)?;
    Ok(Some(LocalCall {
        access: call.access,
        layout,
    }))
}

// Whether a buffer that may be there lies in the space once it is moved.
fn lies_if(layout: &Option<Layout>, by: i64) -> bool
    requires { IsNear address_limit by }
    ensures { IsTrue result ↔ IfSome layout.now (LiesAt by) }
{
    match layout {
        Some(layout) => lies_at(layout, by),
        None => true,
    }
}

// Whether a buffer lies in the space once it is moved. Its first run and its last one decide.
fn lies_at(layout: &Layout, by: i64) -> bool
    requires { IsNear address_limit by }
    ensures { IsTrue result ↔ LiesAt by layout.now }
{
    if layout.is_empty() {
        return true;
    }
    let first = layout.get(0);
    let last = layout.get(layout.len() - 1);
    let start = first.start + by;
    let end = end_of(last) + by;
    is_in_space(start, end)
}

// Whether what lies between two addresses lies in the space of the caller.
fn is_in_space(start: i64, end: i64) -> bool
    ensures { result ≡ is_between Space.Local start end }
{
    0 <= start && end <= SPACE as i64
}

// Where a run ends.
fn end_of(run: Run) -> i64
    requires { IsInBounds run }
    ensures { result ≡ end_of run }
{
    run.start + run.len as i64
}

// A buffer, moved by a distance.
fn moved(alloc: Global, layout: &Layout, by: i64) -> Result<Layout, Memory>
    requires { LiesAt by layout.now }
    ensures { IfOk result (IsMoved by layout.now) }
{
    layout.moved(alloc, by)
}
