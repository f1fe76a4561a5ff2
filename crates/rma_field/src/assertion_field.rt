//! Words of assertions.
ghost use Rattle.std.specs.Prelude.{◌≡◌, ◌||◌, find, false, MatchOption};
ghost use Rattle.std.specs.List.{list_all};
ghost use Rattle.rma_call.specs.Assertion.{assertion_word, asserts, with_assertion};
ghost use Rattle.rma_field.specs.Assertions.{assertions_of, is_crowded, is_one_of};
ghost use Rattle.rma_field.specs.Kinds.{is_word};
ghost use Rattle.rma_field.specs.Texts.{texts_at};
ghost use Rattle.rma_field.specs.Steps.{Gives};
ghost use Rattle.rma_field.specs.inside.Found.{IsFound};

use crate::field::is_word;
use crate::number::refused;
use crate::parse_error::ParseError;
use rma_base::{FormReason, Version};
use rma_call::{Assertion, Assertions};

// Assertions, and whether one of them stands twice.
#[derive(Drop)]
struct Found {
    assertions: Assertions,
    repeated: bool,
}

/// The words as assertions, of which a line may have these.
pub fn assertions_field(
    version: Version,
    allowed: &[Assertion],
    words: &[&[u8]],
) -> Result<Assertions, ParseError>
    ensures { Gives result (assertions_of version allowed.now (texts_at words.now)) }
{
    let Some(found) = find_all(allowed, words) else {
        return Err(refused(FormReason::UnknownAssertion));
    };
    if is_crowded(version, words) {
        Err(refused(FormReason::WrongCount))
    } else if found.repeated {
        Err(refused(FormReason::BadWord))
    } else {
        Ok(found.assertions)
    }
}

// The assertions of the words, if each word is one of these.
fn find_all(allowed: &[Assertion], words: &[&[u8]]) -> Option<Found>
    ensures { MatchOption result (list_all (is_one_of allowed.now) (texts_at words.now) ≡ false) (λ found. IsFound allowed.now (texts_at words.now) found) }
{
    let mut found = Found {
        assertions: Assertions::none(),
        repeated: false,
    };
    for word in words {
        let Some(assertion) = assertion_of(allowed, word) else {
            return None;
        };
        found.add(assertion);
    }
    Some(found)
}

impl Found {
    // One more stands behind them.
    fn add(&mut self, assertion: Assertion)
        ensures assertions { self.new.assertions ≡ with_assertion self.old.assertions assertion }
        ensures repeated { self.new.repeated ≡ (asserts self.old.assertions assertion || self.old.repeated) }
    {
        if self.assertions.has(assertion) {
            self.repeated = true;
        }
        self.assertions = self.assertions.with(assertion);
    }
}

// The assertion of that word, if it is one of these.
fn assertion_of(allowed: &[Assertion], word: &[u8]) -> Option<Assertion>
    ensures { result ≡ find (λ it. is_word (assertion_word it) word.now) allowed.now }
{
    allowed
        .iter()
        .copied()
        .find(|it| is_word(word, it.word().as_bytes()))
}

// Whether there are more words than a log of this version may have.
fn is_crowded(version: Version, words: &[&[u8]]) -> bool
    ensures { result ≡ is_crowded version (texts_at words.now) }
{
    match version {
        Version::One => words.len() > 2,
        Version::Two => false,
    }
}
