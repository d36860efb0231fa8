//! Connections that were closed at once.

/// Why a connection was closed at once. It never was a link.
#[derive(Clone, Copy, Debug, Drop, PartialEq, Eq)]
pub enum Refusal {
    /// The kernel names nobody as its caller.
    Unattested {
        /// The number of its socket.
        socket: u32,
    },
    /// As many links of its caller are open as may be of one uid.
    UidFull {
        /// The number of its socket.
        socket: u32,
        uid: u32,
    },
}
