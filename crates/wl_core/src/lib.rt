//! The agent as a list of events: one manager and up to 32 sessions, without threads, sockets or a clock.
//!
//! A [`World`] takes one event after the other and says what came of each, line by line. What it says is a definition over
//! its first document and the events alone, and what is written to one caller is the talk of that caller's own trace.
#![tactic(auto)]

mod counts;
mod documents;
mod events;
mod laws;
mod lines;
mod marks;
mod naming;
mod seats;
mod step;
mod tokens;
mod world;

pub use counts::Counts;
pub use events::{CONNS, Event};
pub use laws::{bytes_of_trace, isolation_by_agreement};
pub use lines::Line;
pub use world::World;
