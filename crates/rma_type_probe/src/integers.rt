//! Numbers of 64 bits in the lines of rows.
use rma_table::Failure;

/// The number of 64 bits that a word is, which may have a minus in front.
///
/// # Errors
///
/// `Row` where it is none.
pub fn signed(word: &str) -> Result<i64, Failure> {
    match word.parse::<i64>() {
        Ok(number) => Ok(number),
        Err(_) => Err(Failure::Row),
    }
}

/// The number of 64 bits that a word is, without a minus.
///
/// # Errors
///
/// `Row` where it is none.
pub fn unsigned(word: &str) -> Result<u64, Failure> {
    match word.parse::<u64>() {
        Ok(number) => Ok(number),
        Err(_) => Err(Failure::Row),
    }
}
