//! The particulars of a call.
ghost use Rattle.std.specs.Prelude.{◌≡◌, is_some, true};
ghost use Rattle.std.specs.Option.{option_copied};
ghost use Rattle.rma_known.specs.Elsewhere.{joined, name_alone, no_details, number_alone, request_alone};

use arrayvec::ArrayVec;
use rma_base::Name;
use std::marker::Model;

/// The numbers among the particulars of a call, in the order of its line: of an access the target, the displacement, and up to
/// three addresses; of any other call the rank, and the tag, the address or the number of bytes, as far as it has them.
pub type Numbers = ArrayVec<u64, 5>;

/// The particulars of a call: where it is made, and by which names.
#[derive(Drop)]
pub struct Particulars {
    /// The numbers that say where.
    numbers: Numbers,
    /// The communicator or the window.
    name: Option<Name>,
    /// The request that it makes or completes.
    request: Option<Name>,
}

impl Model for Particulars {
    ghost use Rattle.rma_known.specs.Elsewhere.{Details};

    ghost Value = { Details };

    ghost view = { λ own. record { numbers = own.numbers.items; name = own.name; request = own.request } };
}

impl Particulars {
    /// None.
    #[inline]
    pub fn new() -> Particulars
        ensures { result ≡ no_details }
    {
        Particulars {
            numbers: Numbers::new(),
            name: None,
            request: None,
        }
    }

    /// The numbers that say where.
    #[inline]
    pub fn numbers(&self) -> &[u64]
        ensures { result.now ≡ self.now.numbers }
    {
        self.numbers.as_slice()
    }

    /// Takes out the communicator or the window, if there is one.
    #[inline]
    pub fn take_out_name(&mut self) -> Option<Name>
        ensures name { result ≡ self.old.name }
        ensures others { self.new ≡ record self.old { name = None } }
    {
        self.name.take()
    }

    /// The request that it makes or completes, if there is one.
    #[inline]
    pub fn request(&self) -> Option<&Name>
        ensures { option_copied result ≡ self.now.request }
    {
        self.request.as_ref()
    }

    /// Whether there is a request.
    #[inline]
    pub fn requests(&self) -> bool
        ensures { result ≡ is_some self.now.request }
    {
        self.request.is_some()
    }

    /// Takes a number more, and says whether there was room for it.
    #[inline]
    pub(crate) fn take_number(&mut self, number: u64) -> bool
        ensures { result ≡ true → self.new ≡ joined self.old (number_alone number) }
    {
        if self.numbers.is_full() {
            return false;
        }
        self.numbers.push(number);
        true
    }

    /// Takes a name, and says whether there was none.
    #[inline]
    pub(crate) fn take_name(&mut self, name: Name) -> bool
        ensures { result ≡ true → self.new ≡ joined self.old (name_alone name) }
    {
        if self.name.is_some() {
            return false;
        }
        self.name = Some(name);
        true
    }

    /// Takes the name of a request, and says whether there was none.
    #[inline]
    pub(crate) fn take_request(&mut self, name: Name) -> bool
        ensures { result ≡ true → self.new ≡ joined self.old (request_alone name) }
    {
        if self.request.is_some() {
            return false;
        }
        self.request = Some(name);
        true
    }
}
