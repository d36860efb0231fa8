//! What a step of a seat comes to.

use crate::seat::SeatEnd;

/// What a step of a seat came to.
#[derive(Clone, Copy, Debug, Drop, PartialEq, Eq)]
pub enum Step {
    /// The seat goes on.
    On,
    /// No link is there for now, or no place for one.
    Idle,
    /// There will be no more links.
    Closed,
    /// The seat has ended, except the links that it still serves.
    Over(SeatEnd),
}
