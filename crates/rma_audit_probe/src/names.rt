//! The names of logs, and the words that audit them.
use rma_table::Failure;
use std::alloc::Global;

/// The words that audit so many logs: `audit`, and the names of all.
///
/// # Errors
///
/// `Memory` where there is none left.
pub fn audit_of(alloc: Global, count: usize) -> Result<Vec<String>, Failure> {
    let mut words = Vec::new(alloc);
    words.push(String::from_str(alloc, "audit")?)?;
    for rank in 0..count {
        words.push(name_of(alloc, rank)?)?;
    }
    Ok(words)
}

/// The name of the log of a rank.
///
/// # Errors
///
/// `Memory` where there is none left.
pub fn name_of(alloc: Global, rank: usize) -> Result<String, Failure> {
    Ok(format!(in alloc; "{rank}")?)
}
