//! Which form a line has.
ghost use Rattle.std.specs.Prelude.{◌≡◌, ℕ, List, [], ◌∷◌, IsNone, IfSome, MatchOption};
ghost use Rattle.rma_field.specs.Steps.{Gives};
ghost use Rattle.rma_form.specs.Forms.{form_of, form_of_kind};

use crate::form::LineForm;
use rma_base::{FormReason, Version};
use rma_field::{ParseError, refused};

/// The form of a line of a log of this version that has this verb, and this first word behind it, the site not counted.
///
/// # Errors
///
/// That no form has the verb, or none of those that have it has the word.
pub fn form_of(version: Version, verb: &[u8], kind: Option<&[u8]>) -> Result<LineForm, ParseError>
    ensures { (words : List (List ℕ)) → MatchOption kind.entry (words ≡ []) (λ kind. (rest : List (List ℕ)) × (words ≡ kind.now ∷ rest))
        → Gives result (form_of version verb.now words) }
{
    match LineForm::seen(version, verb, kind) {
        Some(form) => Ok(form),
        None => searched_form(version, verb, kind),
    }
}

// The same, where all forms are compared.
#[cold]
fn searched_form(version: Version, verb: &[u8], kind: Option<&[u8]>) -> Result<LineForm, ParseError>
    ensures { (words : List (List ℕ)) → MatchOption kind.entry (words ≡ []) (λ kind. (rest : List (List ℕ)) × (words ≡ kind.now ∷ rest))
        → Gives result (form_of version verb.now words) }
{
    match LineForm::with_verb(version, verb) {
        Some(form) if form.has_kind() => form_of_kind(version, verb, kind),
        Some(form) => Ok(form),
        None => Err(refused(FormReason::UnknownVerb)),
    }
}

// The form with that verb and that word behind it.
fn form_of_kind(version: Version, verb: &[u8], kind: Option<&[u8]>) -> Result<LineForm, ParseError>
    ensures none { IsNone kind.entry → Gives result (form_of_kind version verb.now []) }
    ensures some { IfSome kind.entry (λ kind. (rest : List (List ℕ)) → Gives result (form_of_kind version verb.now (kind.now ∷ rest))) }
{
    let Some(kind) = kind else {
        return Err(refused(FormReason::WrongCount));
    };
    match LineForm::with_words(version, verb, kind) {
        Some(form) => Ok(form),
        None => Err(refused(FormReason::BadWord)),
    }
}
