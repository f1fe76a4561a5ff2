//! What a line states, by numbers.
use rma_base::Name;
use rma_form::Event;

/// What a line states that is neither blank nor a comment.
#[derive(Debug, Drop)]
pub struct ReadLine {
    /// The event.
    pub event: Event,
    /// The number of its site, if the recorder says one.
    pub site: Option<u32>,
    /// Whether the words before the site state the event by themselves, so that they can be noted.
    pub by_words: bool,
}

/// A call that a line states whose words came before, by numbers.
#[derive(Debug, Drop)]
pub struct KnownCall {
    /// The number of what it does.
    pub what: u32,
    /// The request that it makes or completes.
    pub request: Option<Name>,
    /// The number of its site, if the recorder says one.
    pub site: Option<u32>,
}
