//! What may be said. No variant holds the bytes of a key, a token or a message.

use crate::causes::{BindCause, ErrorCode, PullCause, SignCause};
use crate::fault_line::FaultLine;
use crate::path_text::PathText;
use crate::restart_member::RestartMember;
use crate::time_text::TimeText;
use call_counts::{CallMethod, CallStatus};
use figures::{LateCause, LinkCause};
use wl_entry::Ask;

/// What a document has, and in which of its entries it differs from the last that was taken before.
#[derive(Clone, Copy, Debug, Drop, PartialEq, Eq)]
pub struct DocumentCounts {
    pub entries: u64,
    pub bundles: u64,
    /// How many of its entries are new, or other than before.
    pub changed: u64,
    /// How many entries are gone.
    pub removed: u64,
}

/// In which sockets a configuration differs from the one before. One that is there as other than before is both removed and added.
#[derive(Clone, Copy, Debug, Drop, PartialEq, Eq)]
pub struct SocketChanges {
    pub added: u32,
    pub removed: u32,
}

/// A call that ended.
#[derive(Clone, Copy, Debug, Drop, PartialEq, Eq)]
pub struct EndedCall {
    /// The number of its socket, from 0.
    pub socket: u32,
    /// The user of its caller, where the kernel names it.
    pub uid: Option<u32>,
    pub method: CallMethod,
    pub status: CallStatus,
}

/// An event: ids, causes, numbers and paths. A socket is named by its number, from 0: in the order of the first configuration, and
/// then as sockets are added. Of an ask the line has the entry's id.
#[derive(Drop)]
pub enum Event<'a> {
    /// Nobody listens at the path of a socket of the configuration.
    BindFailed(&'a PathText, BindCause),
    /// The configuration could not be read.
    ConfigurationUnread,
    /// The configuration has this fault, and the agent does not start.
    ConfigurationRefused(&'a FaultLine),
    /// A later configuration has this fault, and nothing of it is taken.
    LaterConfigurationRefused(&'a FaultLine),
    /// A later configuration was taken.
    ConfigurationTaken(SocketChanges),
    /// A later configuration has another value of this member, which takes effect at the next start alone.
    RestartWanted(RestartMember),
    /// The socket of this number is served from now on, at this path.
    SocketAdded(u32, &'a PathText),
    /// The socket of this number takes no more callers. It was at this path.
    SocketRemoved(u32, &'a PathText),
    /// Every user may open the socket of this number at this path.
    SocketOpenToAll(u32, &'a PathText),
    /// The first document has this fault.
    FirstDocumentRefused(&'a FaultLine),
    /// No first document came.
    NoFirstDocument,
    /// So many threads as serving needs could not be started.
    NoThread,
    /// A listener failed for good.
    ListenFailed(u32),
    /// A socket, a listener, or what watches its links failed.
    HostFailed,
    /// Standard output could not be written.
    OutputFailed,
    /// Memory ran out.
    OutOfMemory,
    /// A later document has this fault, and nothing of it is taken.
    DocumentRefused(&'a FaultLine),
    /// Another document than the last was taken, and the publication of this number shows it.
    DocumentTaken(u64, DocumentCounts),
    /// No document came, for the first time at this time.
    AuthorityFailed(PullCause, &'a TimeText),
    /// A document came again.
    AuthorityBack,
    /// No identity was signed for the ask.
    SigningFailed(&'a Ask, SignCause),
    /// No token was signed for the ask.
    TokenFailed(&'a Ask, SignCause),
    /// The last identity that was signed for the ask has ended.
    IdentityEnded(&'a Ask),
    /// An identity was signed for the ask, which is valid from this Unix second on and isn't yet.
    IdentityNotYetValid(&'a Ask, u64),
    /// The entry of the ask has had no identity for some time, and a caller of this socket that is entitled to it is connected.
    CallerWaits(u32, &'a Ask),
    /// The peer of a connection of this socket broke a rule of HTTP/2, and the connection was ended with this code.
    ConnectionBroken(u32, ErrorCode),
    /// A connection of this socket was given up.
    LinkLate(u32, LateCause),
    /// A connection of this socket failed.
    ConnectionFailed(u32, LinkCause),
    /// Nobody can say who a caller of this socket is, and it was refused.
    AttestationFailed(u32),
    /// A caller of this socket was refused, since as many connections of its user are open as may be. The user is named by its uid.
    ConnectionsOfUidFull(u32, u32),
    /// The socket file at this path was gone, or another stood there, and one of this process stands there again.
    SocketBoundAnew(&'a PathText),
    /// An identity was signed for the ask, which ends at this Unix second.
    Signed(&'a Ask, u64),
    /// The signer answered again.
    SignerBack,
    /// So many sockets are served.
    Serving(u32),
    /// The process ends with this status.
    Stopping(u8),
    /// A caller connected to this socket.
    Connected(u32),
    /// A connection of this socket was closed.
    Closed(u32),
    /// A call ended.
    Call(EndedCall),
}
