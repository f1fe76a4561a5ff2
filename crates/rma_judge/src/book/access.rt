//! Judging calls that access the part of a target, and local accesses.
ghost use Rattle.std.specs.Prelude.{◌≡◌, ◌+◌, ◌<◌, ◌^◌, ◌∷◌, [], List, length, not, is_some, IfOk, IfErr, IfSome, OnOk, None, Some, false, if◌then◌else◌};
ghost use Rattle.std.specs.Option.{option_copied, option_map_or, option_or};
ghost use Rattle.rma_form.specs.declared.event.Event.{Event};
ghost use Rattle.rma_form.specs.declared.event.Event.TheVariants.{Local, Rma};
ghost use Rattle.rma_buffer.specs.Calls.{local_call_of, rma_call_of};
ghost use Rattle.rma_buffer.specs.Operands.{AreOf, IsOf, kind_of, operands_of};
ghost use Rattle.rma_buffer.specs.Rules.{IsErrorOf, buffers_reason, memory_reason};
ghost use Rattle.rma_judge.specs.Judging.{first_that_holds, name_reason, use_reason};
ghost use Rattle.rma_judge.specs.Names.{pending, request_number};
ghost use Rattle.rma_judge.specs.Naming.{attributes_of, request_that, with_access};
ghost use Rattle.rma_judge.specs.inside.BookState.{FitsRequest, IsJudged, IsGoodAccess, IsTaken, Represents, fault_in};

use crate::book::Book;
use crate::naming::with_access;
use rma_base::{FormReason, Memory, Name};
use rma_buffer::{BufferError, Operand, Operands, local_call, one_sided_call};
use rma_call::{LocalCall, RmaCall, What};
use rma_form::{LocalLine, RmaLine};

/// What a book says of an access.
#[derive(Debug, Drop)]
pub enum JudgedAccess {
    /// It is bad.
    Bad(FormReason),
    /// It is good.
    Good {
        /// What it does.
        what: What,
        /// The number of the request that it makes.
        request: Option<u32>,
    },
}

impl Book {
    /// Judges a call that accesses the part of a target with the request that stands beside it, and takes it where it is good.
    ///
    /// # Errors
    ///
    /// `Memory` where memory ran out: the book no longer represents the events that it took.
    pub fn access(&mut self, line: &RmaLine, request: Option<&Name>) -> Result<JudgedAccess, Memory>
        ensures judged { IfOk result (λ judged. IsJudged self.old self.new (Rma line.now (option_copied request.entry)) (fault_in judged)) }
        ensures good { IfOk result (λ judged. (events : List Event) → Represents self.old events → IsGoodAccess events (Rma line.now (option_copied request.entry)) judged) }
        ensures fits { IfOk result (λ judged. FitsRequest judged) }
    {
        let operands = Operands::of(self.types.types(), &line.access);
        if let Some(reason) = self.access_reason(line, request, operands.is_none()) {
            return Ok(JudgedAccess::Bad(reason));
        }
        let Some(operands) = operands else {
            return Ok(JudgedAccess::Bad(FormReason::UnknownType));
        };
        match self.one_sided(line, &operands) {
            Ok(call) => {
                let request = self.note_access(line, request)?;
                Ok(JudgedAccess::Good {
                    what: What::Rma(call),
                    request,
                })
            }
            Err(BufferError::Fault(reason)) => Ok(JudgedAccess::Bad(reason)),
            Err(BufferError::Memory) => Err(Memory),
        }
    }

    /// Judges a local access, and takes it where it is good.
    ///
    /// # Errors
    ///
    /// `Memory` where memory ran out.
    pub fn local(&mut self, line: &LocalLine) -> Result<JudgedAccess, Memory>
        ensures judged { IfOk result (λ judged. IsJudged self.old self.new (Local line.now) (fault_in judged)) }
        ensures good { IfOk result (λ judged. (events : List Event) → Represents self.old events → IsGoodAccess events (Local line.now) judged) }
        ensures fits { IfOk result (λ judged. FitsRequest judged) }
    {
        if let Some(reason) = self.later_reason() {
            return Ok(JudgedAccess::Bad(reason));
        }
        let Some(memory) = Operand::of(self.types.types(), &line.buffer) else {
            return Ok(JudgedAccess::Bad(FormReason::UnknownType));
        };
        match self.memory(line, &memory) {
            Ok(call) => Ok(JudgedAccess::Good {
                what: What::Local(call),
                request: None,
            }),
            Err(BufferError::Fault(reason)) => Ok(JudgedAccess::Bad(reason)),
            Err(BufferError::Memory) => Err(Memory),
        }
    }

    // Why a call that accesses the part of a target is bad now for what it says of names and ranks, if it is; whether the name of a
    // datatype is not live is known.
    fn access_reason(
        &self,
        line: &RmaLine,
        request: Option<&Name>,
        lacks_type: bool,
    ) -> Option<FormReason>
        ensures { (events : List Event) → Represents self.now events → result ≡ option_or
            (if not self.now.begun then Some FormReason.BadHeader else (if self.now.ended then Some FormReason.AfterEnd else None))
            (option_or (name_reason events (with_access line.now.window line.now.target (option_copied request.entry)) lacks_type)
            (use_reason self.now.rank self.now.logs events (with_access line.now.window line.now.target (option_copied request.entry)) false)) }
    {
        match self.later_reason() {
            Some(reason) => Some(reason),
            None => first_access_reason(
                !self.has_window(&line.window),
                lacks_type,
                self.is_pending(request),
                self.is_far(line.target),
            ),
        }
    }

    // Whether there is a request of this name that is pending.
    fn is_pending(&self, request: Option<&Name>) -> bool
        ensures { (events : List Event) → Represents self.now events → result ≡ option_map_or (λ made. is_some (pending events made.0)) (request_that false (option_copied request.entry)) false }
    {
        match request {
            Some(request) => self.requests.get(request).is_some(),
            None => false,
        }
    }

    // Notes the request of a call that accesses the part of a target, if it makes one, and answers its number.
    fn note_access(&mut self, line: &RmaLine, request: Option<&Name>) -> Result<Option<u32>, Memory>
        ensures taken { OnOk result (IsTaken self.old self.new (Rma line.now (option_copied request.entry))) }
        ensures number { IfOk result (λ number. (events : List Event) → Represents self.old events → number ≡ request_number events (attributes_of (Rma line.now (option_copied request.entry)))) }
        ensures fits { IfOk result (λ number. IfSome number (λ n. n + 1 < 2 ^ 32)) }
    {
        match request {
            Some(_) => self.note(&with_access(&line.window, line.target, request)),
            None => {
                self.begun = true;
                Ok(None)
            }
        }
    }

    // The call of a line with these buffers. The book goes on representing what it did.
    #[inline]
    fn one_sided(&mut self, line: &RmaLine, operands: &Operands) -> Result<RmaCall, BufferError>
        requires within { AreOf (length self.old.types.origins) operands.now }
        requires are { operands_of self.old.types.live line.now.access ≡ Some operands.now }
        ensures ok { IfOk result (λ call. call ≡ rma_call_of self.old.types.origins line.now operands.now) }
        ensures taken { OnOk result (buffers_reason self.old.types.origins self.old.types.committed (kind_of line.now.access) line.now.target operands.now ≡ None) }
        ensures fault { IfErr result (IsErrorOf (buffers_reason self.old.types.origins self.old.types.committed (kind_of line.now.access) line.now.target operands.now)) }
        ensures same { self.new ≡ self.old }
    {
        one_sided_call(&mut self.types, line, operands)
    }

    // The local access of a line with this memory. The book goes on representing what it did.
    #[inline]
    fn memory(&mut self, line: &LocalLine, memory: &Operand) -> Result<LocalCall, BufferError>
        requires { IsOf (length self.old.types.origins) memory.now }
        ensures ok { IfOk result (λ call. call ≡ local_call_of self.old.types.origins line.now.access memory.now) }
        ensures taken { OnOk result (memory_reason self.old.types.origins memory.now ≡ None) }
        ensures fault { IfErr result (IsErrorOf (memory_reason self.old.types.origins memory.now)) }
        ensures same { self.new ≡ self.old }
    {
        local_call(&mut self.types, line.access, memory)
    }
}

/// The first of the reasons of an access that holds.
fn first_access_reason(
    lacks_window: bool,
    lacks_type: bool,
    used: bool,
    far: bool,
) -> Option<FormReason>
    ensures { result ≡ first_that_holds (
        (FormReason.UnknownWindow, lacks_window) ∷ (FormReason.UnknownType, lacks_type) ∷ (FormReason.NameInUse, used) ∷ (FormReason.RankTooLarge, far) ∷ []) }
{
    if lacks_window {
        Some(FormReason::UnknownWindow)
    } else if lacks_type {
        Some(FormReason::UnknownType)
    } else if used {
        Some(FormReason::NameInUse)
    } else if far {
        Some(FormReason::RankTooLarge)
    } else {
        None
    }
}
