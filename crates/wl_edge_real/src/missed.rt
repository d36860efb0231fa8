//! Why a socket gave no link.

use crate::refusal::Refusal;
use std::io;
use std::io::ErrorKind;

/// There is no memory (the number of errno(3) on Linux).
pub(crate) const ENOMEM: i32 = 12;

/// Out of memory, as an error of the system.
pub(crate) fn no_memory<E: Drop>(_cause: E) -> io::Error {
    io::Error::from_raw_os_error(ENOMEM)
}

/// Why a socket gave no link.
#[derive(Drop)]
pub(crate) enum Missed {
    /// No peer waits there.
    Nobody,
    /// Another may wait: the system was interrupted, the peer was gone, or was closed since too many links are open.
    Again,
    /// As many of its links are open as may be.
    Full,
    /// The peer was closed. Another may wait.
    Refused(Refusal),
    /// The operating system refused.
    Failed(io::Error),
}

impl From<io::Error> for Missed {
    fn from(error: io::Error) -> Missed {
        match error.kind() {
            ErrorKind::WouldBlock => Missed::Nobody,
            ErrorKind::Interrupted | ErrorKind::ConnectionAborted => Missed::Again,
            _ => Missed::Failed(error),
        }
    }
}
