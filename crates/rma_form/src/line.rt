//! Writing the words of lines: parts that several forms have.
ghost use Rattle.std.specs.Prelude.{◌≡◌, ◌∷◌, ◌++◌, [], ℕ, List, IfOk, OnOk, string_bytes, if◌then◌else◌};
ghost use Rattle.std.specs.List.{join_with_byte};
ghost use Rattle.rma_field.specs.Assertions.{assertion_words};
ghost use Rattle.rma_form.specs.inside.Suffix.{asserted_suffix};

pub(crate) mod datatype;
pub(crate) mod epoch;
pub(crate) mod frame;
pub(crate) mod local;
pub(crate) mod message;
pub(crate) mod moving;
pub(crate) mod rma;
pub(crate) mod window;

use rma_base::{Memory, Name};
use rma_call::{Assertion, Assertions};
use std::alloc::Global;

/// A line of words and a name.
pub(crate) fn named_line(alloc: Global, words: &str, name: &Name) -> Result<String, Memory>
    ensures { IfOk result (λ line. string_bytes line ≡ join_with_byte 32 (words.now ∷ name.now ∷ [])) }
{
    Ok(format!(in alloc; "{words} {}", name.text())?)
}

/// The line with the words of the assertions behind it.
pub(crate) fn asserted_line(line: String, assertions: Assertions) -> Result<String, Memory>
    ensures { IfOk result (λ more. (first : List ℕ) (words : List (List ℕ)) → string_bytes line ≡ join_with_byte 32 (first ∷ words)
        → string_bytes more ≡ join_with_byte 32 (first ∷ (words ++ assertion_words assertions))) }
{
    let mut line = line;
    push_assertion(&mut line, assertions, Assertion::Nocheck)?;
    push_assertion(&mut line, assertions, Assertion::Noprecede)?;
    push_assertion(&mut line, assertions, Assertion::Nosucceed)?;
    push_assertion(&mut line, assertions, Assertion::Nostore)?;
    push_assertion(&mut line, assertions, Assertion::Noput)?;
    Ok(line)
}

// Puts the word of the assertion behind the line, if it is one of these.
fn push_assertion(
    line: &mut String,
    assertions: Assertions,
    assertion: Assertion,
) -> Result<(), Memory>
    ensures { OnOk result (string_bytes line.new ≡ string_bytes line.old ++ asserted_suffix assertions assertion) }
{
    if assertions.has(assertion) {
        write!(line, " {}", assertion.word())?;
    }
    Ok(())
}
