//! The words of the command line.
use rma_table::Failure;

/// What is asked for.
#[derive(Clone, Copy, Debug, PartialEq, Eq)]
pub enum Subject {
    /// The links of a run, and the order of its points.
    Order,
    /// What calls wait for, as they come.
    Sources,
    /// The epochs of each rank.
    Epochs,
}

/// The subject that the first of some words names, with the words behind it.
///
/// # Errors
///
/// `Usage` where it names none.
pub fn subject_in(words: &[String]) -> Result<(Subject, &[String]), Failure> {
    let Some((first, rest)) = words.split_first() else {
        return Err(Failure::Usage);
    };
    match first.as_str() {
        "order" => Ok((Subject::Order, rest)),
        "sources" => Ok((Subject::Sources, rest)),
        "epochs" => Ok((Subject::Epochs, rest)),
        _ => Err(Failure::Usage),
    }
}
