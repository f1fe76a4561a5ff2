//! Where an access starts and is done, and what covers it.
use rma_base::Point;
use rma_rules::LockKey;
use std::marker::Model;

/// Where an access starts at its target and is done, and the lock epochs in which it lies.
#[derive(Debug, Drop)]
pub struct Span<'a> {
    /// The entry of the call that opens the epoch at the target; none for what is no access to a target.
    pub opening: Option<Point>,
    /// The point at which the access is done, if it ever is.
    pub done: Option<Point>,
    /// The lock epochs in which it lies.
    pub locks: &'a [LockKey],
}

impl<'a> Model for Span<'a> {
    ghost use Rattle.rma_touch.specs.Touches.{Span};

    ghost Value = { Span };

    ghost view = { λ own. record { opening = own.opening; done = own.done; locks = own.locks.now } };
}
