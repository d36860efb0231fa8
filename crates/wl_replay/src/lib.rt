//! Scripts and transcripts: what happened, read line by line, and what is said of it, line by line.
//!
//! [`read_script`] reads the lines of events of a [`Script`], or tells the first [`ScriptFault`] with its line;
//! [`put_line`] writes a line of a transcript, and [`replay`] that of a script. [`simulate`] counts what an agent does
//! over generated events.
#![tactic(auto)]

mod acts;
mod doc_faults;
mod draws;
mod events;
mod fault;
mod generated;
mod hex;
mod kinds;
mod limits;
mod lines;
mod numbers;
mod replays;
mod script;
mod simulation;
mod telling;
mod words;

pub use doc_faults::put_fault;
pub use fault::ScriptFault;
pub use hex::put_hex;
pub use limits::{MAX_CALLER_SELECTORS, MAX_ENTRIES, MAX_STEPS, SCRIPT_LIMIT};
pub use lines::put_line;
pub use numbers::{number_in, put_all, put_decimal, put_spaced};
pub use replays::replay;
pub use script::{Script, read_script};
pub use simulation::simulate;
