//! The subjects.
use rma_table::Failure;

/// What is asked for.
#[derive(Clone, Copy, Debug, PartialEq, Eq)]
pub enum Subject {
    /// Which accesses race.
    Races,
    /// Which cuts show that.
    Cuts,
    /// What a strict audit finds.
    Strict,
    /// What is found in the logs of trials.
    Trials,
    /// How many races are shown by least cuts; this has logs in place of a table.
    Shown,
}

/// The subject that the first of some words names, with the words behind it.
///
/// # Errors
///
/// `Usage` where it names none.
pub fn subject_in(words: &[String]) -> Result<(Subject, &[String]), Failure> {
    let Some((first, rest)) = words.split_first() else {
        return Err(Failure::Usage);
    };
    match first.as_str() {
        "races" => Ok((Subject::Races, rest)),
        "cuts" => Ok((Subject::Cuts, rest)),
        "strict" => Ok((Subject::Strict, rest)),
        "trials" => Ok((Subject::Trials, rest)),
        "shown" => Ok((Subject::Shown, rest)),
        _ => Err(Failure::Usage),
    }
}
