//! Names of communicators, windows, requests and datatypes.
ghost use Rattle.std.specs.Prelude.{◌≡◌, ◌↔◌, IfOk, IsErrOf, true, false, nat_eq, length};
ghost use Rattle.rma_base.specs.Name.{is_name, begins_name, continues_name};
ghost use Rattle.std.specs.Cmp.Lexicographic.{pointwise, nat_list_eq_equiv};
ghost use Rattle.std.specs.Cmp;
ghost use Rattle.std.proofs.Common.{ap, rules};
ghost use Rattle.std.specs.Hash.{same_Alike};
ghost use Rattle.std.specs.Cmp.Rules.{hashing};
ghost use Rattle.std.specs.List.{list_all};
ghost use Rattle.rma_base.specs.inside.Key.{key_of, key_writes};

use crate::limits::NAME;
use crate::memory::Memory;
use crate::same::is_same;
use arrayvec::ArrayString;
use std::alloc::Global;
use std::hash::{FoldHasher, Hash, Hasher};
use std::marker::Model;
use std::rc::Rc;
use std::str;
use thiserror::Error;

/// A name of a communicator, a window, a request or a datatype. Copies share one place of memory, which has the text, and a
/// key by which a table finds the name.
#[derive(Debug, Drop)]
pub struct Name {
    shared: Rc<Keyed>,
}

/// A text with its key.
#[derive(Debug, Drop)]
struct Keyed {
    /// What a hasher is fed of the text.
    key: u64,
    text: ArrayString<NAME>,
}

impl Model for Name {
    ghost use Rattle.std.specs.Prelude.{ℕ, List, true, ◌≡◌};
    ghost use Rattle.rma_base.specs.Name.{is_name};
    ghost use Rattle.rma_base.specs.inside.Key.{key_of};

    ghost Value = { List ℕ };

    ghost view = { λ name. name.shared.value.text.bytes };

    ghost invariant = { λ name. (is_name name.shared.value.text.bytes ≡ true) × (name.shared.value.key ≡ key_of name.shared.value.text.bytes) };
}

/// Why a text makes no name.
#[derive(Clone, Copy, Debug, PartialEq, Eq, Error)]
pub enum NameError {
    /// It does not have the form of a name.
    #[error("refused")]
    Bad,
    /// Memory ran out.
    #[error("memory")]
    Memory,
}

impl Name {
    /// The name with these bytes.
    pub fn new(alloc: Global, text: &[u8]) -> Result<Name, NameError>
        ensures ok { IfOk result (λ name. name ≡ text.now) }
        ensures bad { IsErrOf result NameError.Bad ↔ (is_name text.now ≡ false) }
    {
        if !has_form(text) {
            return Err(NameError::Bad);
        }
        let key = key_of(text);
        let Ok(text) = str::from_utf8(text) else {
            return Err(NameError::Bad);
        };
        let Ok(text) = ArrayString::from(text) else {
            return Err(NameError::Bad);
        };
        match Rc::new(alloc, Keyed { key, text }) {
            Ok(shared) => Ok(Name { shared }),
            Err(_) => Err(NameError::Memory),
        }
    }

    /// The text of the name.
    pub fn text(&self) -> &str
        ensures { result.now ≡ self.now }
    {
        self.shared.text.as_str()
    }

    /// The bytes of the name.
    pub fn bytes(&self) -> &[u8]
        ensures bytes { result.now ≡ self.now }
        ensures form { is_name self.now ≡ true }
    {
        self.shared.text.as_str().as_bytes()
    }

    /// A name with the same bytes.
    pub fn copy(&self) -> Result<Name, Memory>
        ensures { IfOk result (λ name. name ≡ self.now) }
    {
        match self.shared.clone() {
            Ok(shared) => Ok(Name { shared }),
            Err(_) => Err(Memory),
        }
    }
}

impl PartialEq for Name {
    ghost eq = { pointwise nat_eq };

    ghost laws = { Cmp.partial_equiv_from_equiv nat_list_eq_equiv };

    fn eq(&self, other: &Self) -> bool {
        is_same(self.bytes(), other.bytes())
    }
}

impl Eq for Name {
    ghost laws = { nat_list_eq_equiv };
}

impl Hash for Name {
    ghost hash_input = { key_writes };

    ghost respects_eq = { Prim.search (hashing, rules) };

    fn hash<H: Hasher>(&self, state: &mut H) {
        state.write_u64(self.shared.key);
    }
}

/// The number by which a table finds a text.
fn key_of(text: &[u8]) -> u64
    ensures { result ≡ key_of text.now }
{
    let mut state = FoldHasher::default();
    state.write(text);
    state.finish()
}

/// Whether the text is a letter or `_`, then letters, digits, `_`, `.` and `-`, of at most `NAME` bytes.
fn has_form(text: &[u8]) -> bool
    ensures { result ≡ is_name text.now }
{
    match text.split_first() {
        Some((first, rest)) => begins(*first) && all_continue(rest) && rest.len() < NAME,
        None => false,
    }
}

/// Whether each byte may stand in a name.
fn all_continue(bytes: &[u8]) -> bool
    ensures { result ≡ list_all continues_name bytes.now }
{
    bytes.iter().all(|byte| continues(*byte))
}

/// Whether a name may begin with the byte.
fn begins(byte: u8) -> bool
    ensures { result ≡ begins_name byte }
{
    byte.is_ascii_alphabetic() || byte == b'_'
}

/// Whether the byte may stand in a name behind its first.
fn continues(byte: u8) -> bool
    ensures { result ≡ continues_name byte }
{
    begins(byte) || byte.is_ascii_digit() || byte == b'.' || byte == b'-'
}
