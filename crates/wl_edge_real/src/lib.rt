//! The outside as the operating system has it: Unix sockets, a poll and its waker, the clock, the words of a command line.
//!
//! Each thing keeps the counts that its trait asks for. Links, listeners and outputs tell what they gave and took, by lists
//! that exist only in proofs. What a socket gives or takes, and when a wait ends, is the operating system's: this crate is
//! the trusted edge.
#![tactic(auto)]

mod arrivals;
mod bell;
mod binding;
mod changes;
mod clock;
mod command_line;
mod dialed;
mod doors;
mod file;
mod gate;
mod hidden;
mod limits;
mod link;
mod listener;
mod loopback;
mod mark;
mod missed;
mod open_links;
mod output;
mod ready;
mod refusal;
mod sockets;
mod stop;
mod stream;
mod tables;
mod telling;
mod told_stream;
mod turns;
mod upstream;
mod watch;
mod watched;

pub use bell::RealBell;
pub use binding::{BindFault, FileId, Guard, PathListener, Unnamed, bind, bind_unnamed};
pub use changes::Changes;
pub use clock::RealClock;
pub use command_line::words;
pub use dialed::{Address, DialedLink};
pub use file::FileUpstream;
pub use gate::{Pace, RealGate};
pub use limits::Limits;
pub use link::{LinkFailures, RealLink, Traffic};
pub use listener::{BoundAt, RealListener};
pub use loopback::{LoopbackListener, bind_loopback};
pub use open_links::{MAX_OPEN_LINKS, OpenLinks};
pub use output::RealOutput;
pub use ready::RealReady;
pub use refusal::Refusal;
pub use stop::Stop;
pub use upstream::{PULL_SECONDS, RealUpstream};
pub use watch::Lateness;
