//! The subjects.
use rma_table::Failure;

/// What is asked for.
#[derive(Clone, Copy, Debug, PartialEq, Eq)]
pub enum Subject {
    /// What the top call answers and writes.
    Audit,
}

/// The subject that the first of some words names, with the words behind it.
///
/// # Errors
///
/// `Usage` where it names none.
pub fn subject_in(words: &[String]) -> Result<(Subject, &[String]), Failure> {
    let Some((first, rest)) = words.split_first() else {
        return Err(Failure::Usage);
    };
    match first.as_str() {
        "audit" => Ok((Subject::Audit, rest)),
        _ => Err(Failure::Usage),
    }
}
