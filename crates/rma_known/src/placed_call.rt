//! A call that came before, by numbers.

/// A call that came before.
#[derive(Clone, Copy, Debug)]
pub struct PlacedCall<'a> {
    /// The number of what it does.
    pub what: u32,
    /// Whether it makes or completes a request.
    pub requests: bool,
    /// The numbers among its particulars.
    pub from: &'a [u64],
}
