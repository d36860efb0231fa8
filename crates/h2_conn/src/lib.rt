//! What a peer's frames mean on a connection of HTTP/2 (RFC 9113), in this agent's profile.
//!
//! One table decides: the first of its rows that applies to a frame says what changes, what is
//! answered and what is reported, or why the connection fails. `specs/Peer.antt` is that table. All
//! that a server writes on the connection goes through it too, so that a fault is its end.
#![tactic(auto)]

mod answers;
mod blocks;
mod conn;
mod control;
mod data;
mod fault;
mod happening;
mod laws;
mod limits;
mod phase;
mod settings;
mod state;
mod streams;
mod table;
mod windows;
mod writing;

pub use blocks::judge_trailers;
pub use conn::Conn;
pub use fault::{ConnCause, ConnError, ConnFault};
pub use happening::Happening;
pub use laws::{
    dead_streams_take_nothing, faults_end_all, floods_are_counted, flushes_once, frames_fit,
    frames_tell_streams, streams_hold_messages, windows_are_sums,
};
