//! Exchanges over Unix sockets that end by a deadline, from connecting on.
//!
//! [`connect`] waits for nobody. A [`TimedStream`] reads and writes a stream, and each of its calls ends by one deadline,
//! however slowly the peer reads and writes.
#![tactic(auto)]

mod connecting;
mod deadlines;
mod spare;
mod stream;

pub use connecting::connect;
pub use deadlines::{deadline_after, time_left};
pub use spare::Spare;
pub use stream::TimedStream;
