//! The verdict on each call of a connection, as its head and its body come.
//!
//! Each request of the Workload API and of the health service is one message. A call is refused at the first byte that
//! shows why, or it is ready at the end of its request; then its message was decoded, and what it says is handed on with
//! it. A call that waits for its body holds the bytes that came of its one message, at most 32,773 bytes with their prefix.
#![tactic(auto)]

mod calls;
mod event;
mod judge;
mod laws;
mod request;
mod standing;
#[cfg(test)]
mod tests;

pub use calls::{CALLS_AT_ONCE, Calls};
pub use event::CallEvent;
pub use laws::verdicts_stay;
pub use request::Request;
