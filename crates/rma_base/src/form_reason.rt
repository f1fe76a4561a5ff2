//! Why a line of a log is bad.
ghost use Rattle.std.specs.Prelude.{◌≡◌};
ghost use Rattle.rma_base.specs.FormReason.{form_word};

/// The reason of a bad line, in the order in which the reasons are tried.
#[derive(Clone, Copy, Debug, PartialEq, Eq, PartialOrd, Ord, Hash)]
pub enum FormReason {
    /// More than `LINE` bytes before the line feed or the end.
    LineTooLong,
    /// A byte that is neither printable ASCII nor a tab.
    BadByte,
    /// The first field is no verb.
    UnknownVerb,
    /// A word of assertion that is not known.
    UnknownAssertion,
    /// The number of fields fits no form of the verb.
    WrongCount,
    /// A field that should be a number is none.
    BadNumber,
    /// A field that should be a name or a site is none.
    BadName,
    /// A kind, model, order, operation, lock or version word is unknown, or an assertion is repeated.
    BadWord,
    /// A number outside its range.
    OutOfRange,
    /// The first event is no header, or a later one is.
    BadHeader,
    /// The header names another rank or another number of logs.
    WrongHeader,
    /// An event after `end`.
    AfterEnd,
    /// The communicator was not declared.
    UnknownComm,
    /// The window was not created by this rank, or was freed.
    UnknownWindow,
    /// No request of that name is pending.
    UnknownRequest,
    /// A datatype's name is not live, or a basic type is freed.
    UnknownType,
    /// The name is in use.
    NameInUse,
    /// A rank that is not below the number of logs.
    RankTooLarge,
    /// A communicator without the declaring rank.
    NotInGroup,
    /// Source and tag on a request that is no receive, or none on a receive.
    WrongWait,
    /// A negative count or block length of a datatype.
    NegativeCount,
    /// A rule of the subarray constructor is broken.
    BadSubarray,
    /// A datatype of an RMA call is not committed.
    NotCommitted,
    /// The operation is not allowed for the datatype.
    OperationNotAllowed,
    /// The type signatures of origin and target do not fit.
    SignatureDiffers,
    /// More than `ELEMENTS` entries.
    TooManyElements,
    /// More than `BLOCKS` blocks.
    TooManyBlocks,
    /// A byte outside the space of addresses.
    OutOfSpace,
    /// Two touched entries share a byte of a buffer that is written.
    OverlappingType,
    /// `end` while a request is pending.
    RequestPending,
    /// The log ends without `end`.
    MissingEnd,
    /// The root of a collective is no member of its communicator.
    RootNotMember,
    /// Memory is attached to, or detached from, a window that is not dynamic.
    NotDynamic,
}

impl FormReason {
    /// The word that the report has for this reason.
    pub fn word(&self) -> &'static str
        ensures { result.now ≡ form_word self.now }
    {
        match self {
            FormReason::LineTooLong => "line_too_long",
            FormReason::BadByte => "bad_byte",
            FormReason::UnknownVerb => "unknown_verb",
            FormReason::UnknownAssertion => "unknown_assertion",
            FormReason::WrongCount => "wrong_count",
            FormReason::BadNumber => "bad_number",
            FormReason::BadName => "bad_name",
            FormReason::BadWord => "bad_word",
            FormReason::OutOfRange => "out_of_range",
            FormReason::BadHeader => "bad_header",
            FormReason::WrongHeader => "wrong_header",
            FormReason::AfterEnd => "after_end",
            FormReason::UnknownComm => "unknown_comm",
            FormReason::UnknownWindow => "unknown_window",
            FormReason::UnknownRequest => "unknown_request",
            FormReason::UnknownType => "unknown_type",
            FormReason::NameInUse => "name_in_use",
            FormReason::RankTooLarge => "rank_too_large",
            FormReason::NotInGroup => "not_in_group",
            FormReason::WrongWait => "wrong_wait",
            FormReason::NegativeCount => "negative_count",
            FormReason::BadSubarray => "bad_subarray",
            FormReason::NotCommitted => "not_committed",
            FormReason::OperationNotAllowed => "operation_not_allowed",
            FormReason::SignatureDiffers => "signature_differs",
            FormReason::TooManyElements => "too_many_elements",
            FormReason::TooManyBlocks => "too_many_blocks",
            FormReason::OutOfSpace => "out_of_space",
            FormReason::OverlappingType => "overlapping_type",
            FormReason::RequestPending => "request_pending",
            FormReason::MissingEnd => "missing_end",
            FormReason::RootNotMember => "root_not_member",
            FormReason::NotDynamic => "not_dynamic",
        }
    }
}
