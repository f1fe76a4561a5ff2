//! The words of the command line, and of the lines of rows.
use rma_table::Failure;

/// What is asked for.
#[derive(Clone, Copy, Debug, PartialEq, Eq)]
pub enum Subject {
    /// What lines state.
    Lines,
    /// The lines of texts, and the fields of lines.
    Lex,
    /// What logs come to.
    Log,
    /// The calls that logs record.
    Calls,
}

/// The subject that the first of some words names, with the words behind it.
///
/// # Errors
///
/// `Usage` where it names none.
pub fn subject_in(words: &[String]) -> Result<(Subject, &[String]), Failure> {
    let Some((first, rest)) = words.split_first() else {
        return Err(Failure::Usage);
    };
    match first.as_str() {
        "lines" => Ok((Subject::Lines, rest)),
        "lex" => Ok((Subject::Lex, rest)),
        "log" => Ok((Subject::Log, rest)),
        "calls" => Ok((Subject::Calls, rest)),
        _ => Err(Failure::Usage),
    }
}

/// The first word of a line of a row, and what stands behind the blank after it.
pub fn word_and_rest(line: &str) -> (&str, &str) {
    match line.split_once(' ') {
        Some(parts) => parts,
        None => (line, ""),
    }
}
