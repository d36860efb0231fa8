//! What may be written now on a connection of HTTP/2 (RFC 9113, sections 5.2 and 6.9).
//!
//! An outbox holds the windows, the queued control frames, and for each stream its head
//! block, its messages and its trailers. A pull writes all that the windows allow, in the
//! one order that makes two interleavings of the same offers write the same bytes.
#![tactic(auto)]

mod block;
mod flow;
mod laws;
mod message;
mod outbox;
mod overflow;
mod pull;
mod stream;
mod streams;

pub use laws::{
    messages_differ, offers_once, pulls_keep_streams, pulls_once, pulls_stay_within_windows,
    windows_are_sums, writes_what_began,
};
pub use outbox::Outbox;
pub use overflow::Overflow;
