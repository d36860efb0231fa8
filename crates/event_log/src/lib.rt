//! Events of the agent, as lines of a log.
//!
//! [`put_line`] writes an [`Event`] as one line of `key=value` members (logfmt). An event is made of ids, causes, numbers and
//! paths; no variant can hold the bytes of a key, a token or a message. [`Slot`] holds repeats back.
#![tactic(auto)]

mod causes;
mod event;
mod fault_line;
mod laws;
mod level;
mod line;
mod names;
mod path_text;
mod repeats;
mod restart_member;
pub mod texts;
mod time_text;

pub use causes::{BindCause, ErrorCode, PullCause, Reason, SignCause, UnfitCause};
pub use event::{DocumentCounts, EndedCall, Event, SocketChanges};
pub use fault_line::FaultLine;
pub use laws::{lines_are_one, texts_are_printed};
pub use level::Level;
pub use line::put_line;
pub use path_text::PathText;
pub use repeats::{MINUTE, Slot};
pub use restart_member::RestartMember;
pub use time_text::TimeText;
