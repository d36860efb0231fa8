//! The frames of HTTP/2 (RFC 9113, sections 3.4, 4 and 6).
//!
//! A parser is fed the bytes of a connection, cut anywhere, and gives the frames that they
//! begin with, or the first fault, after which it gives nothing more. Frames are written
//! in one encoding, which reads back as the same frame.
#![tactic(auto)]

mod fault;
mod frame;
mod head;
mod laws;
mod opening;
mod parser;
mod payload;
mod pending;
mod reading;
mod stage;
mod writing;

pub use fault::FrameFault;
pub use frame::{Body, Frame, Setting};
pub use laws::cut_anywhere;
pub use parser::Parser;
pub use writing::put_frame;
