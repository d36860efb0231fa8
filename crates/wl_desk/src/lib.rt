//! The desk: a manager and a publisher under one lock, with the number of seats that still serve.
//!
//! Each call that changes what is kept prepares the step, publishes what the step publishes, and then adopts it. So the last
//! publication is always the manager's, and out of memory leaves both as they were.
#![tactic(auto)]

mod desk;
mod published_snapshots;
mod settle;
mod tokens;

pub use desk::Desk;
pub use published_snapshots::last_snapshot;
