//! The client program's one call: words, a link and a sink in, a status out.
//!
//! [`control`] reads the words, opens the call over the link, hears what the server sends, and writes a line for each
//! SVID, token or state. It ends with the status that its table gives.
#![tactic(auto)]

mod asked;
mod call;
mod choices;
mod decoded;
mod escapes;
mod laws;
mod limits;
mod lines;
mod options;
mod program;
mod request;
mod sending;
pub mod status;
mod words;

pub use laws::escaped_text_has_no_newline;
pub use program::{control, keep, keep_bundles};
pub use words::refusal;
