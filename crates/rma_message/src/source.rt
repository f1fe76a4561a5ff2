//! Where the message of a call comes from.
use rma_base::Point;

/// Where the message of a receive comes from, asked of the call that completes the receive.
#[derive(Clone, Copy, Debug, PartialEq, Eq)]
pub enum MessageSource {
    /// The call completes no receive.
    NoReceive,
    /// It completes one, and which send matches is not known yet: a receive that its rank posted before it on its
    /// communicator is not complete, or the send is not taken.
    Unknown,
    /// The rank that sends enters the send that matches at this point.
    From(Point),
}
