//! Whether as many words stand behind the fields of a line as may stand there.
ghost use Rattle.std.specs.Prelude.{◌<◌};
ghost use Rattle.rma_field.specs.Steps.{Gives};
ghost use Rattle.rma_field.specs.Texts.{texts_at};
ghost use Rattle.rma_form.specs.Forms.{form_at};
ghost use Rattle.rma_form.specs.Tails.{groups_counted, tail_counted};

use crate::form::{LineForm, TailKind};
use rma_base::{FormReason, Version};
use rma_field::{ParseError, assertions_field, refused};

/// Whether so many words may stand behind the fields of a line of this form, and words of assertions are good ones.
///
/// # Errors
///
/// That there are too few words or too many, or the first reason for which a word of an assertion is bad.
pub fn tail_counted(version: Version, form: LineForm, words: &[&[u8]]) -> Result<(), ParseError>
    ensures { Gives result (tail_counted version (form_at form).tail (texts_at words.now)) }
{
    match form.tail() {
        TailKind::Closed if words.is_empty() => Ok(()),
        TailKind::Received if words.is_empty() || words.len() == 2 => Ok(()),
        TailKind::Asserted => match assertions_field(version, form.allowed(version), words) {
            Ok(_) => Ok(()),
            Err(error) => Err(error),
        },
        TailKind::Groups { size, least, most } => groups_counted(size, least, most, words.len()),
        _ => Err(refused(FormReason::WrongCount)),
    }
}

// Whether so many words are whole groups, and as many of them as may stand.
fn groups_counted(
    size: usize,
    least: usize,
    most: Option<usize>,
    words: usize,
) -> Result<(), ParseError>
    requires { 0 < size }
    ensures { Gives result (groups_counted size least most words) }
{
    let count = words / size;
    let fits = match most {
        Some(most) => count <= most,
        None => true,
    };
    if words % size == 0 && count >= least && fits {
        Ok(())
    } else {
        Err(refused(FormReason::WrongCount))
    }
}
