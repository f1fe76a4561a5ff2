//! What the top call answered and wrote.
use rma_audit::Status;
use rma_table::Failure;
use std::alloc::Global;
use std::str::from_utf8;

/// What the top call answered and wrote.
#[derive(Drop)]
pub struct Answer {
    /// How it ended.
    pub status: Status,
    /// What the sink has kept of what was written.
    pub text: String,
}

impl Answer {
    /// A status, with what the sink has kept.
    ///
    /// # Errors
    ///
    /// `Row` where that is no text, and `Memory` where there is none left.
    pub fn of(alloc: Global, status: Status, kept: &[u8]) -> Result<Answer, Failure> {
        match from_utf8(kept) {
            Ok(text) => Ok(Answer {
                status,
                text: String::from_str(alloc, text)?,
            }),
            Err(_) => Err(Failure::Row),
        }
    }

    /// Whether another answer is the same.
    pub fn is(&self, other: &Answer) -> bool {
        self.status == other.status && self.text.as_str() == other.text.as_str()
    }

    /// Whether what was written says what the status does.
    pub fn agrees(&self) -> bool {
        let text = self.text.as_str();
        match self.status {
            Status::Clean => says_clean(text),
            Status::Findings => !text.is_empty() && !says_clean(text),
            Status::WriteFault => true,
            _ => text.is_empty(),
        }
    }
}

/// Whether a report, as text or as JSON, ends with the verdict that nothing was found.
fn says_clean(text: &str) -> bool {
    text.ends_with("\nclean\n") || text.ends_with(",\"verdict\":\"clean\"}\n")
}

/// What a status is called.
pub fn word_of(status: Status) -> &'static str {
    match status {
        Status::Clean => "clean",
        Status::Findings => "findings",
        Status::Usage => "usage",
        Status::ReadFault { recorded: 0 } => "read fault",
        Status::ReadFault { recorded: _ } => "read fault with races",
        Status::WriteFault => "write fault",
        Status::TooLarge { bytes: _ } => "too large",
        Status::Memory => "out of memory",
    }
}
