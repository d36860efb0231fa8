//! The program's one call: words, a source, a sink and what prepares sockets in, a status out.
//!
//! [`run`] reads the words, then the document, the script or the configuration, judges it, makes the command's output and
//! writes it. All that is to be written is made before the first byte is written, so that nothing partial stands where the
//! outcome is a fault. For `serve` it has a [`Binder`] prepare the sockets and serves them, between judging and writing.
#![tactic(auto)]

mod args;
mod command;
mod outcome;
mod output;
mod program;
mod publication;
mod serve;
mod serve_ends;
pub mod status;
mod unfit;

pub use program::READ_LIMIT;
pub use serve::{Host, config_path, run};
pub use serve_ends::line_of_config_fault;
pub use unfit::refusal;
pub use wl_serve::{Binder, Parts};
