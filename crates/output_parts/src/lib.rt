//! What a connection has to send: bytes of its own, and frames that lend their payload from shared messages.
#![tactic(auto)]

mod filling;
mod output;
mod piece;

pub use output::Output;
