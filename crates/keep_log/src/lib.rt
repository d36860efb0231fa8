//! What `wlctl` says while it writes files, as lines of a log.
//!
//! [`put_line`] writes a [`KeepEvent`] as one line of `key=value` members (logfmt), in the form of the agent's log.
#![tactic(auto)]

mod event;
mod hexadecimal;
mod laws;
mod line;
mod names;

pub use event::{KeepEvent, WrittenSet};
pub use laws::lines_are_one;
pub use line::put_line;
