//! The log of a program: lines of events to standard error, which never wait for a reader, and messages to a supervisor.
//!
//! A line is written whole or dropped and counted. What a terminal, a pipe or a socket does with a line is the operating
//! system's: this crate is part of the trusted edge.
#![tactic(auto)]

mod log;
mod notifier;
mod output;

pub use log::Log;
pub use notifier::Notifier;
pub use output::{LINE_LIMIT, LogOutput};
