//! The phases of a connection.

use crate::fault::ConnFault;
use crate::state::State;
use wl_octets::Octets;

/// What a connection that has failed answers, too.
#[derive(Clone, Copy, Debug, PartialEq, Eq)]
pub struct Totals {
    /// Whether the peer sent GOAWAY.
    pub goaway_received: bool,
    /// How many messages began.
    pub messages_started: u64,
}

/// The phase of a connection.
#[derive(Drop)]
pub enum Phase {
    /// It goes on from this state.
    Open(State),
    /// It has failed, and these bytes are still to be written.
    Failed {
        fault: ConnFault,
        left: Octets,
        totals: Totals,
    },
    /// Memory ran out.
    OutOfMemory(Totals),
}
