//! What may be said.

use event_log::TimeText;
use wl_octets::Octets;

/// A set of files that was written.
#[derive(Drop)]
pub struct WrittenSet {
    /// The serial number of the leaf of the first SVID; none where it can't be read.
    pub serial: Option<Octets>,
    /// When that leaf ends; none where it can't be read.
    pub not_after: Option<TimeText>,
    /// The number of the set's folder.
    pub number: u64,
    /// How many files it has.
    pub count: u64,
}

/// An event. A reason is a sentence without an end.
#[derive(Drop)]
pub enum KeepEvent {
    /// The files of a message were written.
    Written(WrittenSet),
    /// They could not be written into the folder at this path.
    NotWritten {
        path: Octets,
        reason: Octets,
    },
    /// The call was decided by a status or a fault, of which this is the line.
    Answered(Octets),
    /// A call ended with this status. The next one is made after so many seconds.
    Ended {
        status: u8,
        wait: u64,
        reason: Octets,
    },
    /// A token for this audience can't be had. It is tried again after so many seconds, if it is.
    TokenFailed {
        audience: Octets,
        reason: Octets,
        wait: Option<u64>,
    },
    /// The own JWT bundle can't be had. It is tried again after so many seconds, if it is.
    JwksFailed {
        reason: Octets,
        wait: Option<u64>,
    },
}
