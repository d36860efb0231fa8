//! What the page of figures says.

use crate::call_figures::CallFigures;
use crate::socket_path::SocketPath;
use wl_octets::Row;

/// How often a pull of the document ended in each way.
#[derive(Clone, Copy, Debug, Drop, PartialEq, Eq)]
pub struct Documents {
    /// The document was taken.
    pub taken: u64,
    /// The document has a fault.
    pub refused: u64,
    /// No document came.
    pub failed: u64,
}

/// How many entries of the document in use are in each [`IdentityState`](crate::IdentityState), each in one.
#[derive(Clone, Copy, Debug, Drop, PartialEq, Eq)]
pub struct Identities {
    pub kept: u64,
    pub due: u64,
    pub in_flight: u64,
    pub missing: u64,
    /// How many seconds are left until the first identity ends; nothing where no entry has one.
    pub next_end: Option<u64>,
}

/// How often an ask of a signer ended in each way.
#[derive(Clone, Copy, Debug, Drop, PartialEq, Eq)]
pub struct Signings {
    pub signed: u64,
    pub failed: u64,
}

/// How long asks of a signer took: how many took at most so long, and the sum of all.
#[derive(Clone, Copy, Debug, Drop, PartialEq, Eq)]
pub struct Seconds {
    pub at_most_10_milliseconds: u64,
    pub at_most_100_milliseconds: u64,
    pub at_most_1_second: u64,
    pub at_most_5_seconds: u64,
    pub at_most_10_seconds: u64,
    /// How many asks there were.
    pub count: u64,
    /// How many milliseconds they took in all.
    pub milliseconds: u64,
}

/// The connections of a socket, and their calls.
#[derive(Drop)]
pub struct SocketFigures {
    pub path: SocketPath,
    /// How many connections are open.
    pub open: u64,
    /// How many were accepted since the process started.
    pub accepted: u64,
    /// How many of their calls have not ended.
    pub streams: u64,
    pub calls: CallFigures,
}

impl SocketFigures {
    /// Adds those of another socket at the same path.
    pub(crate) fn add(&mut self, other: &SocketFigures) {
        self.open = self.open.saturating_add(other.open);
        self.accepted = self.accepted.saturating_add(other.accepted);
        self.streams = self.streams.saturating_add(other.streams);
        self.calls.add(&other.calls);
    }
}

/// How many connections failed, by cause.
#[derive(Clone, Copy, Debug, Drop, PartialEq, Eq)]
pub struct LinkFaults {
    pub receive_failed: u64,
    pub send_failed: u64,
    /// The peer broke a rule of HTTP/2.
    pub protocol: u64,
    /// It took none of the bytes that waited for it.
    pub stalled: u64,
    /// It made no call.
    pub silent: u64,
    /// Nobody can say who its caller is, and it was refused.
    pub unattested: u64,
    /// As many connections of its user were open as may be, and it was refused.
    pub uid_full: u64,
}

/// How many bytes went over connections.
#[derive(Clone, Copy, Debug, Drop, PartialEq, Eq)]
pub struct Traffic {
    pub received: u64,
    pub sent: u64,
}

/// Figures at one moment: numbers, and the paths of sockets that the configuration names.
#[derive(Drop)]
pub struct Figures {
    pub documents: Documents,
    /// How many seconds ago a document that was taken came last; nothing before the first.
    pub document_age: Option<u64>,
    /// The number of the last publication; nothing before the first.
    pub publication: Option<u64>,
    /// Entries of the document in use.
    pub entries: u64,
    /// Bundles of the document in use.
    pub bundles: u64,
    pub identities: Identities,
    /// Asks for X.509-SVIDs.
    pub x509: Signings,
    /// Asks for JWT-SVIDs.
    pub jwt: Signings,
    pub seconds: Seconds,
    pub sockets: Row<SocketFigures>,
    pub faults: LinkFaults,
    pub traffic: Traffic,
    pub lines_dropped: u64,
    /// When the process started, in Unix seconds.
    pub started: u64,
}
