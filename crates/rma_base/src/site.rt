//! Sites: where in the source of the program a call stands, as the recorder wrote it.
ghost use Rattle.std.specs.Prelude.{◌≡◌, ◌↔◌, IfOk, IsErrOf, true, false};
ghost use Rattle.rma_base.specs.Site.{is_site, is_site_byte};
ghost use Rattle.std.specs.List.{list_all};

use crate::limits::SITE;
use crate::memory::Memory;
use crate::name::NameError;
use smallvec::SmallVec;
use std::alloc::Global;
use std::marker::Model;
use std::rc::Rc;
use std::str;

/// How many bytes of a site stand in one place with what counts its copies. A longer text has a place of its own.
const SHORT: usize = 32;

/// A site of the log, without its `@`. Copies share one place of memory, which has the text.
#[derive(Debug, Drop)]
pub struct Site {
    shared: Rc<SmallVec<u8, SHORT>>,
}

impl Model for Site {
    ghost use Rattle.std.specs.Prelude.{ℕ, List, true, ◌≡◌};
    ghost use Rattle.rma_base.specs.Site.{is_site};

    ghost Value = { List ℕ };

    ghost view = { λ site. site.shared.value.items };

    ghost invariant = { λ site. is_site site.shared.value.items ≡ true };
}

impl Site {
    /// The site with these bytes.
    pub fn new(alloc: Global, text: &[u8]) -> Result<Site, NameError>
        ensures ok { IfOk result (λ site. site ≡ text.now) }
        ensures bad { IsErrOf result NameError.Bad ↔ (is_site text.now ≡ false) }
    {
        if !has_form(text) {
            return Err(NameError::Bad);
        }
        let Ok(text) = SmallVec::from_slice(alloc, text) else {
            return Err(NameError::Memory);
        };
        match Rc::new(alloc, text) {
            Ok(shared) => Ok(Site { shared }),
            Err(_) => Err(NameError::Memory),
        }
    }

    /// The text of the site.
    pub fn text(&self) -> &str
        ensures { result.now ≡ self.now }
    {
        match str::from_utf8(self.bytes()) {
            Ok(text) => text,
            Err(_) => unreachable!(),
        }
    }

    /// The bytes of the site.
    pub fn bytes(&self) -> &[u8]
        ensures bytes { result.now ≡ self.now }
        ensures form { is_site self.now ≡ true }
    {
        self.shared.as_slice()
    }

    /// A site with the same bytes.
    pub fn copy(&self) -> Result<Site, Memory>
        ensures { IfOk result (λ site. site ≡ self.now) }
    {
        match self.shared.clone() {
            Ok(shared) => Ok(Site { shared }),
            Err(_) => Err(Memory),
        }
    }
}

// Whether the text is one to `SITE` bytes of printable ASCII, none of them a blank.
fn has_form(text: &[u8]) -> bool
    ensures { result ≡ is_site text.now }
{
    !text.is_empty() && text.len() <= SITE && all_printable(text)
}

fn all_printable(bytes: &[u8]) -> bool
    ensures { result ≡ list_all is_site_byte bytes.now }
{
    bytes.iter().all(|byte| is_printable(*byte))
}

fn is_printable(byte: u8) -> bool
    ensures { result ≡ is_site_byte byte }
{
    b'!' <= byte && byte <= b'~'
}
