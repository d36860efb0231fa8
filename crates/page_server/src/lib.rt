//! A server of pages over HTTP/1.1, at a Unix socket.
//!
//! [`Server`] serves many peers on one thread, and costs those who count nothing but the reading of their counters. [`serve_pages`]
//! runs one in a thread of its own.
#![tactic(auto)]

mod in_thread;
mod peer;
mod server;

pub use in_thread::serve_pages;
pub use server::{MAX_PEERS, PATIENCE_SECONDS, Server};
