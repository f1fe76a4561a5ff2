//! The words of the command line.
use rma_table::Failure;

/// What is asked for.
#[derive(Clone, Copy, Debug, PartialEq, Eq)]
pub enum Subject {
    /// The accesses of a run.
    Accesses,
    /// The lists beside them.
    Lists,
    /// Which of them conflict.
    Table,
    /// How many accesses there are; this has logs in place of a table.
    Count,
}

/// The subject that the first of some words names, with the words behind it.
///
/// # Errors
///
/// `Usage` where it names none.
pub fn subject_in(words: &[String]) -> Result<(Subject, &[String]), Failure> {
    let Some((first, rest)) = words.split_first() else {
        return Err(Failure::Usage);
    };
    match first.as_str() {
        "accesses" => Ok((Subject::Accesses, rest)),
        "lists" => Ok((Subject::Lists, rest)),
        "table" => Ok((Subject::Table, rest)),
        "count" => Ok((Subject::Count, rest)),
        _ => Err(Failure::Usage),
    }
}
