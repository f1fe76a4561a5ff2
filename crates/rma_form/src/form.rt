//! The table of the forms of lines. `specs/Forms.antt` has the same rows.
ghost use Rattle.std.specs.Prelude.{◌≡◌, ◌+◌, ◌≤◌, length, find, option_map, is_some, true, false, None, IfSome};
ghost use Rattle.rma_form.specs.Forms.{form_at, forms, has_verb, has_words, is_in, is_since_two, kind_words};
ghost use Rattle.rma_form.specs.Tails.{allowed_in};
ghost use Rattle.rma_form.specs.inside.Kind.{IsKind};
ghost use Rattle.rma_form.specs.inside.TailKinds.{HasWords, tail_kind};

mod likely;
mod lookup;
mod row;
mod tail;

use likely::likely;
pub use lookup::form_of;
use rma_base::Version;
use rma_call::Assertion;
use row::ROWS;
pub use tail::tail_counted;

/// A form of a line, by its words.
#[derive(Clone, Copy, Debug, PartialEq, Eq)]
pub enum LineForm {
    /// `rma`
    Header,
    /// `end`
    End,
    /// `comm`
    Comm,
    /// `barrier`
    Barrier,
    /// `send`
    Send,
    /// `recv`
    Recv,
    /// `isend`
    Isend,
    /// `irecv`
    Irecv,
    /// `wait`
    Wait,
    /// `win create`
    Create,
    /// `win free`
    Free,
    /// `fence`
    Fence,
    /// `post`
    Post,
    /// `start`
    Start,
    /// `complete`
    Complete,
    /// `expwait`
    Expwait,
    /// `lock`
    Lock,
    /// `unlock`
    Unlock,
    /// `lockall`
    LockAll,
    /// `unlockall`
    UnlockAll,
    /// `flush`
    Flush,
    /// `flushall`
    FlushAll,
    /// `flushlocal`
    FlushLocal,
    /// `flushlocalall`
    FlushLocalAll,
    /// `sync`
    Sync,
    /// `win dynamic`
    Dynamic,
    /// `attach`
    Attach,
    /// `detach`
    Detach,
    /// `bcast`
    Bcast,
    /// `scatter`
    Scatter,
    /// `gather`
    Gather,
    /// `reduce`
    Reduce,
    /// `allreduce`
    Allreduce,
    /// `allgather`
    Allgather,
    /// `alltoall`
    Alltoall,
    /// `type contiguous`
    Contiguous,
    /// `type vector`
    Vector,
    /// `type hvector`
    Hvector,
    /// `type indexed`
    Indexed,
    /// `type hindexed`
    Hindexed,
    /// `type indexed_block`
    IndexedBlock,
    /// `type struct`
    Struct,
    /// `type resized`
    Resized,
    /// `type subarray`
    Subarray,
    /// `type commit`
    Commit,
    /// `type free`
    FreeType,
    /// `put`
    Put,
    /// `get`
    Get,
    /// `acc`
    Accumulate,
    /// `getacc`
    GetAccumulate,
    /// `fop`
    FetchAndOp,
    /// `cas`
    CompareAndSwap,
    /// `rput`
    Rput,
    /// `rget`
    Rget,
    /// `racc`
    Raccumulate,
    /// `rgetacc`
    RgetAccumulate,
    /// `load`
    Load,
    /// `store`
    Store,
    /// `poll`
    Poll,
}

// Each form once.
const FORMS: [LineForm; 59] = [
    LineForm::Header,
    LineForm::End,
    LineForm::Comm,
    LineForm::Barrier,
    LineForm::Send,
    LineForm::Recv,
    LineForm::Isend,
    LineForm::Irecv,
    LineForm::Wait,
    LineForm::Create,
    LineForm::Free,
    LineForm::Fence,
    LineForm::Post,
    LineForm::Start,
    LineForm::Complete,
    LineForm::Expwait,
    LineForm::Lock,
    LineForm::Unlock,
    LineForm::LockAll,
    LineForm::UnlockAll,
    LineForm::Flush,
    LineForm::FlushAll,
    LineForm::FlushLocal,
    LineForm::FlushLocalAll,
    LineForm::Sync,
    LineForm::Dynamic,
    LineForm::Attach,
    LineForm::Detach,
    LineForm::Bcast,
    LineForm::Scatter,
    LineForm::Gather,
    LineForm::Reduce,
    LineForm::Allreduce,
    LineForm::Allgather,
    LineForm::Alltoall,
    LineForm::Contiguous,
    LineForm::Vector,
    LineForm::Hvector,
    LineForm::Indexed,
    LineForm::Hindexed,
    LineForm::IndexedBlock,
    LineForm::Struct,
    LineForm::Resized,
    LineForm::Subarray,
    LineForm::Commit,
    LineForm::FreeType,
    LineForm::Put,
    LineForm::Get,
    LineForm::Accumulate,
    LineForm::GetAccumulate,
    LineForm::FetchAndOp,
    LineForm::CompareAndSwap,
    LineForm::Rput,
    LineForm::Rget,
    LineForm::Raccumulate,
    LineForm::RgetAccumulate,
    LineForm::Load,
    LineForm::Store,
    LineForm::Poll,
];

// What may stand behind the fields of a line.
#[derive(Clone, Copy)]
enum TailKind {
    // Nothing.
    Closed,
    // The source and the tag of a message, or nothing.
    Received,
    // Words of assertions.
    Asserted,
    // Groups of words.
    Groups {
        // How many words each has.
        size: usize,
        // How many groups there are at least.
        least: usize,
        // How many there are at most, if that is bounded.
        most: Option<usize>,
    },
}

impl LineForm {
    // The verb.
    #[inline]
    fn verb(self) -> &'static str
        ensures { result.now ≡ (form_at self).verb }
    {
        ROWS[self as usize].0
    }

    // The word of its kind behind the verb, if there is one.
    #[inline]
    fn kind(self) -> Option<&'static str>
        ensures { option_map (λ word. word.now) result ≡ (form_at self).kind_word }
    {
        ROWS[self as usize].1
    }

    // The number of further fields.
    #[inline]
    fn fields(self) -> usize
        ensures is { result ≡ length (form_at self).kinds }
        ensures few { result ≤ 14 }
    {
        ROWS[self as usize].2
    }

    // Whether logs of the first version do not have the form.
    fn is_since_two(self) -> bool
        ensures { result ≡ is_since_two self }
    {
        match self {
            LineForm::Dynamic
            | LineForm::Attach
            | LineForm::Detach
            | LineForm::Bcast
            | LineForm::Scatter
            | LineForm::Gather
            | LineForm::Reduce
            | LineForm::Allreduce
            | LineForm::Allgather
            | LineForm::Alltoall
            | LineForm::Poll => true,
            _ => false,
        }
    }

    // Whether logs of the version have the form.
    fn is_in(self, version: Version) -> bool
        ensures { result ≡ is_in version self }
    {
        match version {
            Version::One => !self.is_since_two(),
            Version::Two => true,
        }
    }

    // What may stand behind the fields.
    fn tail(self) -> TailKind
        ensures is { result ≡ tail_kind (form_at self).tail }
        ensures words { HasWords result }
    {
        match self {
            LineForm::Wait => TailKind::Received,
            LineForm::Fence
            | LineForm::Post
            | LineForm::Start
            | LineForm::Lock
            | LineForm::LockAll => TailKind::Asserted,
            LineForm::IndexedBlock => any_groups(1),
            LineForm::Indexed | LineForm::Hindexed => any_groups(2),
            LineForm::Struct => any_groups(3),
            LineForm::Subarray => TailKind::Groups {
                size: 3,
                least: 1,
                most: Some(8),
            },
            _ => TailKind::Closed,
        }
    }

    /// The assertions that a line may have in a log of this version.
    pub fn allowed(self, version: Version) -> &'static [Assertion]
        ensures { result.now ≡ allowed_in version (form_at self).tail }
    {
        match version {
            Version::One => self.allowed_in_one(),
            Version::Two => self.allowed_in_two(),
        }
    }

    fn allowed_in_one(self) -> &'static [Assertion]
        ensures { result.now ≡ allowed_in Version.One (form_at self).tail }
    {
        match self {
            LineForm::Fence => &[Assertion::Noprecede, Assertion::Nosucceed],
            _ => &[],
        }
    }

    fn allowed_in_two(self) -> &'static [Assertion]
        ensures { result.now ≡ allowed_in Version.Two (form_at self).tail }
    {
        match self {
            LineForm::Fence => &[
                Assertion::Noprecede,
                Assertion::Nosucceed,
                Assertion::Nostore,
                Assertion::Noput,
            ],
            LineForm::Post => &[Assertion::Nocheck, Assertion::Nostore, Assertion::Noput],
            LineForm::Start | LineForm::Lock | LineForm::LockAll => &[Assertion::Nocheck],
            _ => &[],
        }
    }

    /// How many words of its kind stand behind the verb, and how many further fields.
    pub fn counts(self) -> (usize, usize)
        ensures kind_words { result.0 ≡ kind_words self }
        ensures further { result.1 ≡ length (form_at self).kinds }
        ensures few { result.0 + result.1 ≤ 15 }
    {
        (usize::from(self.has_kind()), self.fields())
    }

    // Whether a word of its kind stands behind the verb.
    fn has_kind(self) -> bool
        ensures { result ≡ is_some (form_at self).kind_word }
    {
        self.kind().is_some()
    }

    fn has_verb(self, version: Version, verb: &[u8]) -> bool
        ensures { result ≡ has_verb version verb.now self }
    {
        verb == self.verb().as_bytes() && self.is_in(version)
    }

    fn has_words(self, version: Version, verb: &[u8], kind: &[u8]) -> bool
        ensures { result ≡ has_words version verb.now kind.now self }
    {
        match self.kind() {
            Some(word) => self.has_verb(version, verb) && kind == word.as_bytes(),
            None => false,
        }
    }

    // The form that a line with this verb, and this word behind it, has by its looks, if it does have it.
    fn seen(version: Version, verb: &[u8], kind: Option<&[u8]>) -> Option<LineForm>
        ensures { IfSome result (λ form. (has_verb version verb.now form ≡ true) × IsKind (form_at form).kind_word (option_map (λ text. text.now) kind.entry)) }
    {
        match likely(verb, kind) {
            Some(form) if form.has_verb(version, verb) && form.has_kind_word(kind) => Some(form),
            _ => None,
        }
    }

    // Whether this is the word of its kind, where the form has one.
    fn has_kind_word(self, kind: Option<&[u8]>) -> bool
        ensures { result ≡ true → IsKind (form_at self).kind_word (option_map (λ text. text.now) kind.entry) }
    {
        match (self.kind(), kind) {
            (None, _) => true,
            (Some(word), Some(kind)) => kind == word.as_bytes(),
            (Some(_), None) => false,
        }
    }

    // The first form with that verb.
    fn with_verb(version: Version, verb: &[u8]) -> Option<LineForm>
        ensures { result ≡ find (has_verb version verb.now) forms }
    {
        FORMS
            .iter()
            .copied()
            .find(|form| form.has_verb(version, verb))
    }

    // The form with that verb and that word behind it.
    fn with_words(version: Version, verb: &[u8], kind: &[u8]) -> Option<LineForm>
        ensures { result ≡ find (has_words version verb.now kind.now) forms }
    {
        FORMS
            .iter()
            .copied()
            .find(|form| form.has_words(version, verb, kind))
    }
}

// Any number of groups of so many words.
fn any_groups(size: usize) -> TailKind
    ensures { result ≡ TailKind.Groups size 0 None }
{
    TailKind::Groups {
        size,
        least: 0,
        most: None,
    }
}
