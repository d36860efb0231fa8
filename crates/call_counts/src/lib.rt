//! What became of the calls of a connection, in numbers: by method, and by the status with which they ended.
#![tactic(auto)]

mod counts;
mod labels;
mod tally;

pub use counts::{CallCounts, MethodCounts};
pub use labels::{CallMethod, CallStatus};
pub use tally::CallTally;
