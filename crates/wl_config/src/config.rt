//! What a configuration says.

ghost use Rattle.std.specs.Prelude.{◌≡◌, IfOk};
ghost use Rattle.wl_config.specs.SocketPlaces.{name_of};

use std::alloc::Global;
use std::marker::Model;
use std::net::SocketAddr;
use wl_octets::{Memory, Octets, Row};
use wl_selector::Selectors;

/// Who may open a socket's file, and so connect to it.
#[derive(Clone, Copy, Debug, Drop, PartialEq, Eq)]
pub struct SocketGuard {
    /// The uid that owns the file; the agent's own where there is none.
    pub owner: Option<u32>,
    /// Its group; the agent's own where there is none.
    pub group: Option<u32>,
    /// Its permission bits, at most 0o777.
    pub mode: u32,
}

/// Where callers connect, and how the kernel says who they are.
#[derive(Drop, PartialEq)]
pub enum SocketPlace {
    /// The path of a Unix socket, and who may open its file.
    Path {
        path: Octets,
        guard: SocketGuard,
    },
    /// A loopback address and a port (TCP). A caller is the uid that the kernel's table names.
    Loopback {
        /// The address and the port, as the configuration has them.
        text: Octets,
        address: SocketAddr,
        /// How many connections it serves at once for one uid.
        connections_per_uid: u32,
    },
}

impl SocketPlace {
    /// What names the socket in the log and in the figures: its path, or the text of its address. No two sockets of a
    /// configuration have the same name.
    pub fn name(&self) -> &Octets
        ensures { result.now ≡ name_of self.now }
    {
        match self {
            SocketPlace::Path { path, .. } => path,
            SocketPlace::Loopback { text, .. } => text,
        }
    }

    /// A copy.
    pub(crate) fn copy(&self, alloc: Global) -> Result<SocketPlace, Memory>
        ensures { IfOk result (λ p. p ≡ self.now) }
    {
        match self {
            SocketPlace::Path { path, guard } => Ok(SocketPlace::Path {
                path: path.copy(alloc)?,
                guard: *guard,
            }),
            SocketPlace::Loopback {
                text,
                address,
                connections_per_uid,
            } => Ok(SocketPlace::Loopback {
                text: text.copy(alloc)?,
                address: *address,
                connections_per_uid: *connections_per_uid,
            }),
        }
    }
}

/// A socket on which the agent listens.
#[derive(Drop, PartialEq)]
pub struct SocketFact {
    /// Where callers connect to it.
    pub place: SocketPlace,
    /// How many connections it serves at once.
    pub connections: u32,
    /// The selectors of each caller that connects to it.
    pub selectors: Selectors,
}

impl SocketFact {
    /// A copy.
    pub fn copy(&self, alloc: Global) -> Result<SocketFact, Memory>
        ensures { IfOk result (λ f. f ≡ self.now) }
    {
        Ok(SocketFact {
            place: self.place.copy(alloc)?,
            connections: self.connections,
            selectors: self.selectors.copy(alloc)?,
        })
    }
}

/// Where documents come from.
#[derive(Drop, PartialEq)]
pub enum DocumentSource {
    /// The socket of an authority, which gives a document at each connection.
    Socket(Octets),
    /// A file.
    File(Octets),
}

/// Where the agent's figures can be read.
#[derive(Drop, PartialEq)]
pub enum MetricsPlace {
    /// The path, from the root, of a Unix socket.
    Path(Octets),
    /// A loopback address and a port (TCP).
    Loopback(SocketAddr),
}

/// Which events the agent's log has: each level has those of the levels before it.
#[derive(Clone, Copy, Debug, Drop, PartialEq, Eq)]
pub enum LogLevel {
    Error,
    Warn,
    Info,
    Debug,
}

/// For how long a connection is kept that stalls or does nothing, and how much connections hold.
#[derive(Clone, Copy, Debug, Drop, PartialEq, Eq)]
pub struct ConnectionLimits {
    /// For how many seconds a connection may take none of the bytes that wait for it.
    pub stall_seconds: u32,
    /// For how many seconds a connection may stay without a call.
    pub opening_seconds: u32,
    /// How many MiB the connections of one thread hold together at most.
    pub memory_mib: u32,
}

/// A configuration within its limits: paths are not empty, the names of the sockets are distinct, and an address is one of
/// 127.0.0.0/8 or ::1 with a port other than 0. The sockets may serve more connections together than
/// [`MAX_ALL_CONNECTIONS`](crate::MAX_ALL_CONNECTIONS), which is the limit of those that are open.
#[derive(Drop)]
pub struct Config {
    /// Where documents come from.
    pub documents: DocumentSource,
    /// The path of the signer's socket. Where there is none, identities come from the documents.
    pub signer: Option<Octets>,
    /// How many seconds lie between two rounds of upkeep.
    pub poll_seconds: u32,
    /// How many asks of the signer are under way at once.
    pub signers: u32,
    /// Which events the log has.
    pub log: LogLevel,
    /// Where the agent's figures can be read. Without it they cannot.
    pub metrics: Option<MetricsPlace>,
    /// How many threads serve the sockets.
    pub threads: u32,
    /// What a connection, and the connections of a thread, may take.
    pub limits: ConnectionLimits,
    /// The sockets, in the order in which the configuration gives them, those of an item with uids by their order.
    pub sockets: Row<SocketFact>,
}

impl Model for Config {
    ghost use Rattle.wl_config.specs.Configs.{Configuration, Within};

    ghost Value = { Configuration };

    ghost view = { λ c. record { documents = c.documents; signer = c.signer; poll_seconds = c.poll_seconds; signers = c.signers; log = c.log; metrics = c.metrics; threads = c.threads; limits = c.limits; sockets = c.sockets } };

    ghost invariant = { λ c. Within (record { documents = c.documents; signer = c.signer; poll_seconds = c.poll_seconds; signers = c.signers; log = c.log; metrics = c.metrics; threads = c.threads; limits = c.limits; sockets = c.sockets }) };
}
