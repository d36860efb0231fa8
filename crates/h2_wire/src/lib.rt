//! The head of an HTTP/2 frame, and the numbers of the standard, each under its name
//! (RFC 9113, sections 4, 6 and 7).
//!
//! The crate that reads and writes frames and the crate that says what may be written
//! now both write frames. They share this encoding and stand on nothing of each other.
#![tactic(auto)]

pub mod error_code;
pub mod flag;
pub mod frame_type;
mod head;
pub mod limit;
pub mod setting;

pub use head::head_of_frame;
