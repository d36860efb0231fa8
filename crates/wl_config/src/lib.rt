//! The configuration of a serving agent: JSON of version 1, with the sockets on which it listens.
//!
//! [`read_config`] tries the checks in their order; the first that fails is the [`ConfigFault`], with its place. A
//! [`Config`] is within its limits, and no two of its sockets have the same name.
#![tactic(auto)]

mod attestor;
mod config;
mod endpoints;
mod fault;
mod files;
mod guards;
mod limits;
mod loopbacks;
mod members;
mod places;
mod read;
mod selectors;
mod sockets;
mod uids;

pub use attestor::SocketAttestor;
pub use config::{
    Config, ConnectionLimits, DocumentSource, LogLevel, MetricsPlace, SocketFact, SocketGuard,
    SocketPlace,
};
pub use fault::ConfigFault;
pub use limits::{
    CONFIG_LIMIT, DEFAULT_MODE, MAX_ALL_CONNECTIONS, MAX_CONNECTIONS, MAX_ID, MAX_SIGNERS,
    MAX_SOCKET_SELECTORS, MAX_SOCKETS, MAX_THREADS,
};
pub use read::read_config;
